//! The draws of a seed.

ghost use Rattle.std.specs.Prelude.{◌≡◌, ◌+◌, ◌<◌, ◌%◌, ◌^◌};
ghost use Rattle.table_gen.specs.Draws.{a_of, after, b_of, code_of, d_of, draw, state_at};

/// The state from which the next draw is made.
#[derive(Drop)]
pub(crate) struct Draws {
    state: u64,
    ghost small: { state < 2 ^ 31 },
}

/// What one row draws. The text of column g is told by its number, from 0 to 15.
#[derive(Clone, Copy)]
pub(crate) struct Row {
    pub a: i64,
    pub b: i64,
    pub d: i64,
    pub code: u8,
}

impl Draws {
    /// The state before the first draw.
    pub(crate) fn new(seed: u64) -> Draws
        ensures { result.state ≡ state_at seed 0 }
    {
        Draws {
            state: seed % (1 << 31),
        }
    }

    // One draw, below 32,768.
    fn draw(&mut self) -> u64
        ensures state { self.new.state ≡ after self.old.state 1 }
        ensures drawn { result ≡ draw self.old.state 1 }
        ensures small { result < 32768 }
    {
        self.state = (self.state * 1_103_515_245 + 12_345) % (1 << 31);
        self.state / 65_536
    }

    /// The five draws of the next row.
    pub(crate) fn row(&mut self) -> Row
        ensures state { self.new.state ≡ after self.old.state 5 }
        ensures a { result.a ≡ a_of self.old.state }
        ensures b { result.b ≡ b_of self.old.state }
        ensures d { result.d ≡ d_of self.old.state }
        ensures code { result.code ≡ code_of self.old.state }
    {
        let high = self.draw();
        let low = self.draw();
        let units = self.draw();
        let day = self.draw();
        let code = self.draw();
        Row {
            a: (high * 32_768 + low) as i64 - 536_870_912,
            b: (units % 10_001) as i64,
            d: (10_957 + day % 3_653) as i64,
            code: (code % 16) as u8,
        }
    }
}
