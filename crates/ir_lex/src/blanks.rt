//! Passes over blanks and comments, and counts lines.

ghost use Rattle.std.specs.Prelude.{◌≡◌, ◌≤◌, ◌<◌, ◌^◌, ◌+◌, drop, length, false, true};
ghost use Rattle.ir_lex.specs.Blanks.{place, ends_before, is_blank, pass, skip, line_after, line_behind};

/// How many bytes stand before a place, and its line.
#[derive(Clone, Copy)]
pub struct Spot {
    pub at: usize,
    pub line: u32,
}

/// What stands between a token and the next: so many bytes of blanks and comments, and the line
/// behind them.
#[derive(Clone, Copy)]
pub struct Gap {
    pub at: usize,
    pub line: u32,
    /// Whether the token's line, or the text, ends here.
    pub ends_line: bool,
}

/// Space, tab, carriage return and line feed.
fn is_blank(b: u8) -> bool
    ensures { result ≡ is_blank b }
{
    b == b' ' || b == b'\t' || b == b'\r' || b == b'\n'
}

/// Whether a byte is passed over, and whether a comment is open behind it.
fn pass(comment: bool, b: u8) -> Option<bool>
    ensures { result ≡ pass comment b }
{
    if comment {
        Some(b != b'\n')
    } else if is_blank(b) {
        Some(false)
    } else if b == b';' {
        Some(true)
    } else {
        None
    }
}

fn line_after(line: u32, b: u8) -> u32
    requires { line + 1 < 2 ^ 32 }
    ensures exact { result ≡ line_after line b }
    ensures within { result ≤ line + 1 }
{
    if b == b'\n' { line + 1 } else { line }
}

/// Where the blanks and comments at the front end.
pub fn skip(line: u32, bytes: &[u8]) -> Spot
    requires { line + length bytes.now < 2 ^ 32 }
    ensures exact { skip false line bytes.now ≡ place result.line (drop result.at bytes.now) }
    ensures within { result.at ≤ length bytes.now }
    ensures lines { result.line ≤ line + result.at }
{
    let mut at = 0;
    let mut now = line;
    let mut comment = false;
    'each: while at < bytes.len() {
        match pass(comment, bytes[at]) {
            None => return Spot { at, line: now },
            Some(open) => {
                comment = open;
                now = line_after(now, bytes[at]);
                at += 1;
            }
        }
    }
    Spot { at, line: now }
}

/// The line behind these bytes.
pub fn line_behind(line: u32, bytes: &[u8]) -> u32
    requires { line + length bytes.now < 2 ^ 32 }
    ensures exact { result ≡ line_behind line bytes.now }
    ensures within { result ≤ line + length bytes.now }
{
    let mut now = line;
    'each: for b in bytes {
        now = line_after(now, *b);
    }
    now
}

/// Whether a line ends, or the text, between a place on it and what follows on another.
pub fn ends_before(line: u32, next_line: u32, next: &[u8]) -> bool
    ensures { result ≡ ends_before line (place next_line next.now) }
{
    next.is_empty() || line < next_line
}

/// What stands between a token that begins on a line and the next.
pub fn gap_behind(line: u32, text: &[u8], behind: &[u8]) -> Gap
    requires { line + length text.now + length behind.now < 2 ^ 32 }
    ensures exact { skip false (line_behind line text.now) behind.now ≡ place result.line (drop result.at behind.now) }
    ensures within { result.at ≤ length behind.now }
    ensures lines { result.line ≤ line + length text.now + result.at }
    ensures ends { result.ends_line ≡ ends_before (line_behind line text.now) (place result.line (drop result.at behind.now)) }
{
    let end = line_behind(line, text);
    let spot = skip(end, behind);
    let (_blank, next) = behind.split_at(spot.at);
    Gap {
        at: spot.at,
        line: spot.line,
        ends_line: ends_before(end, spot.line, next),
    }
}
