//! Lines and columns of a text.

ghost use Rattle.std.specs.Prelude.{◌≡◌, ◌^◌, ◌<◌, ◌≤◌, length};
ghost use Rattle.snap_cli.specs.Spots.{spot_behind, spot_of};

/// A line and a column, counted from 1, columns in bytes.
#[derive(Clone, Copy)]
pub struct Position {
    pub line: u64,
    pub column: u64,
}

/// The line and the column of the byte at `at`.
pub(crate) fn spot_at(text: &[u8], at: u32) -> Position
    requires { length text.now ≤ 262144 }
    ensures { result ≡ spot_of text.now at }
{
    let end = (at as usize).min(text.len());
    let mut spot = Position { line: 1, column: 1 };
    for byte in &text[..end] {
        spot = behind(spot, *byte);
    }
    spot
}

// The place behind a byte.
fn behind(spot: Position, byte: u8) -> Position
    requires line { spot.line < 2 ^ 32 }
    requires column { spot.column < 2 ^ 32 }
    ensures { result ≡ spot_behind spot byte }
{
    if byte == b'\n' {
        Position {
            line: spot.line + 1,
            column: 1,
        }
    } else {
        Position {
            line: spot.line,
            column: spot.column + 1,
        }
    }
}
