// Texts of ASCII characters.
ghost use Rattle.std.specs.Prelude.{◌≡◌};
ghost use Rattle.std.specs.Str.{bytes_eq};

/// Whether the units are those of these ASCII characters.
pub fn is_spelled(mut units: &[u16], mut spelling: &[u8]) -> bool
    ensures { result ≡ bytes_eq units.entry.now spelling.entry.now }
{
    while let [byte, more_bytes @ ..] = spelling {
        let [unit, more_units @ ..] = units else {
            return false;
        };
        if *unit != u16::from(*byte) {
            return false;
        }
        units = more_units;
        spelling = more_bytes;
    }
    units.is_empty()
}
