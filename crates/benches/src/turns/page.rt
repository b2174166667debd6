//! A value as small as one can be: each entry is its caller's number.
ghost use Rattle.std.specs.Prelude.{◌≡◌};

use turn_cell::Kept;

#[derive(Drop)]
pub struct Page {
    pub entries: Vec<u32>,
}

impl Kept for Page {
    ghost use Rattle.std.specs.Prelude.{true};

    type Entry = u32;

    ghost caller = { λ entry. entry };

    ghost history = { λ page. page.entries.items };

    ghost may = { λ _ _. Unit {0} };

    ghost rests = { λ _. true };

    fn count(&self) -> u64 {
        self.entries.len() as u64
    }
}
