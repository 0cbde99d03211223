// How a reply gets the stamp and the place of its call's record.
ghost use Rattle.std.specs.Prelude.{map, ◌≡◌, ◌==◌, ◌&&◌, not};
ghost use Rattle.rk_model.specs.Merged.{is_mutation as is_mutation_lem};
ghost use Rattle.rk_world.specs.Replies as replies;

use crate::journal::{Journal, is_mutation};
use rk_message::{Body, Message, Reply};
use rk_types::{Answer, Node};
use rk_world::Served;

/// Each message gets stamp and place of its record, if it is a client's reply to a call that was carried out. For each a step
/// for each call that was served, and a search.
pub(crate) fn fill_all(journal: &Journal, served: &[Served], messages: &mut [Message])
    ensures { messages.new ≡ map (replies.filled journal.now served.now) messages.old }
{
    for message in messages.iter_mut() {
        fill(journal, served, message);
    }
}

// A message gets stamp and place of its record, if it is a client's reply to a call that was carried out.
fn fill(journal: &Journal, served: &[Served], message: &mut Message)
    ensures { message.new ≡ replies.filled journal.now served.now message.old }
{
    let Node::Client(client) = message.to else {
        return;
    };
    match &mut message.body {
        Body::Reply(reply) => fill_reply(journal, served, client, reply),
        _ => {}
    }
}

// A reply to a client gets stamp and place if its call was carried out.
fn fill_reply(journal: &Journal, served: &[Served], client: u32, reply: &mut Reply)
    ensures { reply.new ≡ replies.filled_reply journal.now served.now client reply.old reply.old.answer }
{
    if !matches!(reply.answer, Answer::Done(_)) {
        return;
    }
    let Some(place) = place_of(journal, served, client, reply.seq) else {
        return;
    };
    let Some(placed) = journal.records().get(place as usize) else {
        return;
    };
    reply.stamp = placed.stamp;
    reply.place = place;
}

// The place of the record of a client's call: of a read that was served just now the last one, else that of the mutation.
fn place_of(journal: &Journal, served: &[Served], client: u32, seq: u64) -> Option<u64>
    ensures { result ≡ replies.place_of journal.now served.now client seq }
{
    if was_read(served, client, seq) {
        return Some((journal.records().len() as u64).saturating_sub(1));
    }
    journal.place_of(client, seq)
}

// Whether a read of a client with a seq is among these calls.
fn was_read(served: &[Served], client: u32, seq: u64) -> bool
    ensures { result ≡ replies.was_read served.now client seq }
{
    served.iter().any(|one| is_read(one, client, seq))
}

// Whether a call is the read of a client with a seq.
fn is_read(served: &Served, client: u32, seq: u64) -> bool
    ensures { result ≡ (not (is_mutation_lem served.now.call.op) && (served.now.call.client == client) && (served.now.call.seq == seq)) }
{
    let call = &served.call;
    !is_mutation(&call.op) && call.client == client && call.seq == seq
}
