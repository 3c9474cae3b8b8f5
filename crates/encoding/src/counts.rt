// How many, and up to where: what the passes need of the fields that were read, to move the Reader and to know how much follows.
ghost use Rattle.std.specs.Prelude.{◌≡◌, ◌+◌, ◌*◌};
ghost use Rattle.encoding.specs.Encoding.{symbol_count};
ghost use Rattle.encoding.specs.Answers.{FixedSmall, FrontSmall, front_end, preamble_end};

use super::{Fixed, Front};

impl Fixed {
    // How many states the fields name, and how many events.
    pub fn states(self) -> usize
        requires { FixedSmall self }
        ensures { result ≡ self.topstate + 1 }
    {
        self.topstate + 1
    }

    pub fn events(self) -> usize
        requires { FixedSmall self }
        ensures { result ≡ self.topevent + 1 }
    {
        self.topevent + 1
    }

    // How many symbols are listed: none, or one for each event up to the top event.
    pub fn symbol_count(self) -> usize
        requires { FixedSmall self }
        ensures { result ≡ symbol_count self }
    {
        if self.symbols == 0 {
            return 0;
        }
        self.topevent + 1
    }
}

impl Front {
    // The position after the observable bits, where the symbols stand.
    pub fn front_end(self) -> usize
        requires { FrontSmall self }
        ensures { result ≡ front_end self }
    {
        32 + self.fixed.states() + self.fixed.events()
    }

    // The position of the first transition.
    pub fn preamble_end(self) -> usize
        requires { FrontSmall self }
        ensures { result ≡ preamble_end self }
    {
        self.front_end() + self.fixed.symbol_count() * 5
    }

    // The position behind the last transition.
    pub fn end(self) -> usize
        requires { FrontSmall self }
        ensures { result ≡ preamble_end self + self.fixed.count * 17 }
    {
        self.preamble_end() + self.fixed.count * 17
    }
}
