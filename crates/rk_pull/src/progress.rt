ghost use Rattle.std.specs.Prelude.{◌≡◌, ◌==◌, ◌&&◌, nat_lt};
ghost use Rattle.rk_table.specs.Scans.{end, first};

use rk_table::{END, FIRST};
use rk_types::Token;
use std::marker::Model;

/// How far the pulls of a range have come: the token behind all items that have arrived.
#[derive(Clone, Copy)]
pub struct Progress {
    token: Token,
}

impl Model for Progress {
    ghost use Rattle.rk_types.specs.declared.held.Token.{Token};

    ghost Value = { Token };

    ghost view = { λ progress. progress.token };

    ghost inverse = { λ token. record { token = token } };
}

impl Progress {
    /// No batch has arrived: the token is the first one.
    pub fn new() -> Progress
        ensures { result ≡ first }
    {
        Progress { token: FIRST }
    }

    /// Whether a batch that was asked for at this token goes on where the last one ended.
    pub fn awaits(&self, from: &Token) -> bool
        ensures { result ≡ (from.now.bucket == self.now.bucket && (from.now.skip == self.now.skip)) }
    {
        *from == self.token
    }

    /// The items of a batch that was awaited have arrived: the token is `next` now, the one behind that batch.
    pub fn pass(&mut self, next: Token)
        ensures { self.new ≡ next }
    {
        self.token = next;
    }

    /// The token behind all items that have arrived.
    pub fn token(&self) -> &Token
        ensures { result.now ≡ self.now }
    {
        &self.token
    }

    /// Whether all items of this bucket have arrived: the token is behind it. In the token's own bucket some items may
    /// have arrived, which only the table shows.
    pub fn passed_bucket(&self, bucket: u16) -> bool
        ensures { result ≡ nat_lt bucket self.now.bucket }
    {
        self.token.bucket > bucket
    }

    /// Whether all items of the range have arrived: the token is the end.
    pub fn has_all(&self) -> bool
        ensures { result ≡ (self.now.bucket == end.bucket && (self.now.skip == end.skip)) }
    {
        self.token == END
    }
}
