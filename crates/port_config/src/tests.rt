use crate::{Config, Mode};
use std::test::Fail;

#[test]
fn plain_options_lie_in_their_ranges(rt: HostRuntime) -> Result<(), Fail> {
    let alloc = rt.alloc();
    let mut config = Config::plain(alloc)?;
    assert!(rt; config.is_within_ranges());
    assert_eq!(rt; config.mode, Mode::Stream);
    assert!(rt; config.run.is_empty());
    config.mode = Mode::Line(0);
    assert!(rt; !config.is_within_ranges());
    Ok(())
}
