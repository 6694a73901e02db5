ghost use Rattle.std.specs.Prelude.{◌≡◌, ◌≤◌, ◌^◌, length, map, IfOk};
ghost use Rattle.port_links.specs.Flags.{set_flags};
ghost use Rattle.port_links.specs.Posts.{sent_of, exit_of, down_of};

use crate::{Mail, Monitor, NoMemory, Post, Reason};
use std::alloc::Global;

fn exit_post(port: u32, reason: &Reason, process: u32) -> Post
    ensures { sent_of result ≡ exit_of port reason.now process }
{
    Post {
        to: process,
        mail: Mail::Exit {
            port,
            reason: reason.same(),
        },
    }
}

pub(crate) fn down_post(port: u32, reason: &Reason, monitor: &Monitor) -> Post
    ensures { sent_of result ≡ down_of port reason.now monitor.now }
{
    Post {
        to: monitor.process,
        mail: Mail::Down {
            port,
            monitor: monitor.number,
            reason: reason.same(),
        },
    }
}

/// The exit signals to the processes whose flags are set.
pub(crate) fn exit_posts(
    alloc: Global,
    port: u32,
    reason: &Reason,
    linked: &[bool],
) -> Result<Vec<Post>, NoMemory>
    requires { length linked.now ≤ 2 ^ 32 }
    ensures { IfOk result (λ posts. map sent_of posts.items ≡ map (exit_of port reason.now) (set_flags 0 linked.now)) }
{
    let mut posts = Vec::new(alloc);
    for (process, is_linked) in linked.iter().enumerate() {
        if *is_linked {
            posts.push(exit_post(port, reason, process as u32))?;
        }
    }
    Ok(posts)
}
