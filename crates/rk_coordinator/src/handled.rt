use rk_message::Message;

/// What came of a message that the coordinator took.
#[derive(Drop)]
pub struct Handled {
    /// What the coordinator sends, in this order.
    pub sends: Vec<Message>,
    /// Whether the message was a Rebuilt that its row waited for: what it reports is to be recorded.
    pub took_rebuilt: bool,
}
