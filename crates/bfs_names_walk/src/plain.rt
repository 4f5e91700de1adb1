// Rows whose values are plain numbers.
ghost use Rattle.std.specs.Prelude.{◌≡◌, true};
ghost use Rattle.bfs_value_walk.specs.Plain.{IsNumber, ArePlain};
ghost use Rattle.bfs_values.specs.Links.{link_in};
ghost use Rattle.bfs_names_walk.specs.Rows.{as_rows};

use crate::NameRow;
use bfs_values::{Link, link_of};

/// Is a value a plain number?
fn is_number(value: i64) -> bool
    ensures { result ≡ true → IsNumber (link_in value) }
{
    match link_of(value) {
        Link::Number(_) => true,
        Link::Fragment { .. } => false,
        Link::Chain { .. } => false,
        Link::Nothing => false,
    }
}

/// The value of a row.
fn value_of(row: &NameRow) -> i64
    ensures { result ≡ row.now.value }
{
    row.value
}

/// Is each value a plain number?
pub fn are_plain(rows: &[NameRow]) -> bool
    ensures { result ≡ true → ArePlain (as_rows rows.now) }
{
    for i in 0..rows.len() {
        let plain = is_number(value_of(&rows[i]));
        if !plain {
            return false;
        }
    }
    true
}
