use rk_types::Call;

/// The last call that a client asked in a lane, with the highest stamp that it had seen.
#[derive(Drop)]
pub struct LastCall {
    pub call: Call,
    pub seen: u64,
}
