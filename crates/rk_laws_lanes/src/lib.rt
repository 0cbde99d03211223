//! Laws of lanes that are stepped apart, each by itself.
//!
//! Of one lane, whatever becomes of the others: a good lane stays good at each event and at each client's turn and answer, and what it
//! counts (accepted records, asked calls, clients) changes just as receipts do. Of all of them, once they are gathered: with the sessions
//! of the clients that went from lane to lane they have one history, since what is counted of them leaves room for nothing else.
//!
//! It builds on the definitions of `rk_world`, the laws of events, and those of a cluster's history (`rk_runs::history`), of which it needs
//! no run. It has no code: the headline laws are in `proofs/Headlines.antt`. Beside it, `Events` and `Clients` say that lanes stay good,
//! `OfRuns` that those of clusters are, `Ledgers` what events leave of a ledger, `Asks` what a turn counts, and `Answers` what an answer
//! does. In `proofs/gathered`, `Pigeonhole` says that distinct things as many as a list has are all of it, `AllTold` so of receipts and
//! accepted records, and `Merged` that the merged history has nothing else; `OpenCalls` and `Counting` say that lanes count their calls,
//! `Counted` and `Answered` what follows for all of them, `History` that they have one history, and `Stored` what backups store of it.
#![tactic(auto)]
