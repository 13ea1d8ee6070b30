//! The devices of a run.

use outer_world::{Sink, Source, Store};
use std::marker::Model;

/// The devices of a run: an input, one beside it, a plane file, a file to be made, and where output and errors go. Contracts
/// see what they tell.
pub struct World<S: Source, P: Store, K: Sink> {
    pub input: S,
    pub side: S,
    pub planes: P,
    pub made: K,
    pub out: K,
    pub err: K,
}

// A call of its own: a derived drop is proved anew wherever a world is let go.
impl<S: Source + Drop, P: Store + Drop, K: Sink + Drop> Drop for World<S, P, K> {
    fn drop(self) {
        let World {
            input: _,
            side: _,
            planes: _,
            made: _,
            out: _,
            err: _,
        } = self;
    }
}

impl<S: Source, P: Store, K: Sink> Model for World<S, P, K> {
    ghost use Rattle.daq_cli.specs.Worlds.{WorldState};

    ghost Value = { WorldState };

    ghost view = { λ w. record {
      input = S.state w.input;
      side = S.state w.side;
      planes = P.state w.planes;
      made = K.state w.made;
      out = K.state w.out;
      err = K.state w.err;
    } };
}
