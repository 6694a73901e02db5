// What a STAT word says.
ghost use Rattle.std.specs.Prelude.{◌≡◌, List, length};
ghost use Rattle.port_words.specs.declared.busy.view.StatMark.{StatMark};
ghost use Rattle.port_words.specs.busy.Stat.{marks_told, tells_closed, tells_busy, stat_of, marked_closed, marked_busy};

/// The number of marks that the port had made.
pub fn stat_marks(stat: u64) -> u64
    ensures { result ≡ marks_told stat }
{
    stat / 4
}

/// Whether the port was closed.
pub fn stat_closed(stat: u64) -> bool
    ensures { result ≡ tells_closed stat }
{
    stat / 2 % 2 == 1
}

/// Whether the port was busy.
pub fn stat_busy(stat: u64) -> bool
    ensures { result ≡ tells_busy stat }
{
    stat % 2 == 1
}

/// The STAT of any marks tells how many they are, and whether they leave the port closed and busy.
pub fn stat_tells_its_marks()
    ensures count { (marks : List StatMark) → marks_told (stat_of marks) ≡ length marks }
    ensures closed { (marks : List StatMark) → tells_closed (stat_of marks) ≡ marked_closed marks }
    ensures busy { (marks : List StatMark) → tells_busy (stat_of marks) ≡ marked_busy marks }
{}
