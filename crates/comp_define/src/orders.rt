//! Numbers in order.

ghost use Rattle.std.specs.Prelude.{◌≡◌, true};
ghost use Rattle.comp_define.specs.Orders.{AreInOrder};

use indexmap::IndexSet;

/// Whether each number stands at its own place: 0, 1, 2, and so on.
pub fn is_in_order(numbers: &IndexSet<usize>) -> bool
    ensures { result ≡ true → AreInOrder numbers.now.keys }
{
    for place in 0..numbers.len() {
        let Some(number) = numbers.get_index(place) else {
            return false;
        };
        if *number != place {
            return false;
        }
    }
    true
}
