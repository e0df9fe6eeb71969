//! The files of a copy of a place.

ghost use Rattle.std.specs.Prelude.{◌≡◌, ◌<◌};
ghost use Rattle.disk_model.specs.Place.{slot, area};

use crate::place::Place;

impl Place {
    /// The slot file of a copy, counted from 0, for texts of even (0) or odd (1) generation.
    pub fn slot(self, copy: u32, parity: u32) -> u32
        requires copy { copy < self.copies }
        requires parity { parity < 2 }
        ensures { result ≡ slot self copy parity }
    {
        self.first + 4 * copy + parity
    }

    /// The area file of a copy, counted from 0.
    pub fn area(self, copy: u32) -> u32
        requires { copy < self.copies }
        ensures { result ≡ area self copy }
    {
        self.first + 4 * copy + 2
    }
}
