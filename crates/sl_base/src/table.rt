//! Tables whose rows are told by a text.

ghost use Rattle.std.specs.Prelude.{◌≡◌, find};
ghost use Rattle.std.specs.Option.{option_copied};
ghost use Rattle.std.specs.Str.{bytes_eq};

/// A text, and what it stands for.
pub type Row<T> = (&'static str, T);

/// The first row of a table with this text, if there is one.
pub fn find_row<'a, T>(rows: &'a [Row<T>], text: &[u8]) -> Option<&'a Row<T>>
    ensures { option_copied result ≡ find (λ row. bytes_eq text.now row.0.now) rows.now }
{
    rows.iter().find(|row| text == row.0.as_bytes())
}
