use cc_messages::Answer;

/// The answer to the last request of a session.
#[derive(Drop)]
pub struct KeptAnswer {
    pub session: u64,
    pub answer: Answer,
}
