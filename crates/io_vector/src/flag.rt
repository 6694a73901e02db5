/// How a message of a port ended, after the messages `{data, {eol, Line}}` and
/// `{data, {noeol, Line}}` of `open_port` with the option `{line, L}`.
#[derive(Clone, Copy, Debug, PartialEq, Eq)]
pub enum Flag {
    /// The bytes as they came: no line mode.
    Plain,
    /// The end of a line. Its line end isn't among the bytes.
    Eol,
    /// A part of a line that goes on, or a last line without its end.
    Noeol,
}
