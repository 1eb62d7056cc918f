//! Laws of what is written: each is a function that does nothing, and is proved of all bytes or entries.

ghost use Rattle.std.specs.Prelude.{◌≡◌, ◌++◌, ℕ, List, All};
ghost use Rattle.comp_format.specs.Items.{ItemTree};
ghost use Rattle.comp_format.specs.Sections.{Reads};
ghost use Rattle.comp_format.specs.Fits.{FitsItem};
ghost use Rattle.comp_encoder.specs.Writing.{Entry, items_of};

/// Each item that was read has a written form, and so can be added again.
pub fn what_is_read_can_be_written()
    ensures { (bytes : List ℕ) (items : List ItemTree) → Reads bytes items → All FitsItem items }
{}

/// The items of entries, and behind them those of the entries that were added later.
pub fn items_stand_in_order()
    ensures { (front back : List Entry) → items_of (front ++ back) ≡ items_of front ++ items_of back }
{}
