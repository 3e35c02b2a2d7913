//! A sink in memory.
ghost use Rattle.std.specs.Prelude.{◌≡◌, ◌<◌, ◌≤◌, ◌↔◌, length, IfOk, IsErr, Some};
ghost use Rattle.std.specs.Io.{WritesAtMost};
ghost use Rattle.std.specs.Io.KnownBytes.{WriteAppends};
ghost use Rattle.sx_base.specs.Causes.{HasCause};
ghost use Rattle.sx_edge.specs.Tray.{empty_tray, room_left, TakesPiece};

use crate::Sink;
use std::alloc::{AllocError, Global};
use std::marker::Model;
use sx_base::Failed;

/// A sink in memory that takes a given number of bytes, and fails from then on.
#[derive(Drop)]
pub struct Tray {
    taken: Vec<u8>,
    room: usize,
    most: usize,
    faults: u64,
}

impl Model for Tray {
    ghost use Rattle.std.specs.Prelude.{◌≤◌, ◌<◌, length, vec_capacity};
    ghost use Rattle.sx_base.specs.Causes.{last_count};
    ghost use Rattle.sx_edge.specs.Tray.{TrayState};

    ghost Value = { TrayState };

    ghost view = { λ tray. record { taken = tray.taken.items; room = tray.room; most = tray.most; faults = tray.faults } };

    ghost invariant = { λ tray. record {
      reserved : tray.room ≤ vec_capacity tray.taken;
      within : length tray.taken.items ≤ tray.room;
      some : 1 ≤ tray.most;
    } };
}

impl Tray {
    /// An empty tray with room for `room` bytes, of which one write takes `most` at most.
    ///
    /// The whole room is reserved here, so that no write takes memory; it fails where there isn't as much.
    pub fn new(alloc: Global, room: usize, most: usize) -> Result<Tray, AllocError>
        requires { 1 ≤ most }
        ensures { IfOk result (λ tray. tray ≡ empty_tray room most) }
    {
        Ok(Tray {
            taken: Vec::with_capacity(alloc, room)?,
            room,
            most,
            faults: 0,
        })
    }

    /// The bytes taken so far.
    pub fn taken(&self) -> &[u8]
        ensures taken { result.now ≡ self.now.taken }
        ensures within { length result.now ≤ self.now.room }
    {
        &self.taken
    }
}

impl Sink for Tray {
    ghost taken = { λ tray. Some tray.taken };

    ghost faults = { λ tray. tray.faults };

    /// Takes as many bytes as `piece` has, one write takes and there is room for.
    ///
    /// Fails exactly where `piece` isn't empty and there is no room left.
    fn write(&mut self, piece: &[u8]) -> Result<usize, Failed>
        ensures takes { TakesPiece self.old self.new piece.now result }
        ensures fails { IsErr result ↔ ((0 < length piece.now) × (room_left self.old ≡ 0)) }
        ensures bound { WritesAtMost result piece.now }
        ensures progress { 0 < length piece.now → IfOk result (λ n. 0 < n) }
        ensures bytes { WriteAppends (Some self.old.taken) (Some self.new.taken) result piece.now }
        ensures cause { HasCause self.old.faults self.new.faults result }
    {
        let room_left = self.room - self.taken.len();
        if room_left == 0 && !piece.is_empty() {
            self.faults = self.faults.saturating_add(1);
            return Err(Failed);
        }
        let n = piece.len().min(self.most).min(room_left);
        match self.taken.extend_from_slice(&piece[..n]) {
            Ok(()) => Ok(n),
            Err(_) => unreachable!(),
        }
    }
}
