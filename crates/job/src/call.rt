// What is asked of a job, and what it answers.
use refusal::Refusal;

/// What a call of a job answers: that it was accepted, or why it was refused.
pub type Answer = Result<(), Refusal>;

/// What may be asked of a job within one of its states.
#[derive(Clone, Copy, PartialEq, Eq, Debug)]
pub enum Call<'a> {
    /// To take the next bytes of the part, of which there may be none. Refused where the part would pass its limit, of
    /// 65,535 bytes for the header (1) and of 68,719,476,704 for the body (2).
    Feed(&'a [u8]),
    /// To let the other engine take over. Refused where the engine is not ready (6).
    Switch,
}

/// The calls of a whole job.
#[derive(Clone, Copy)]
pub struct Calls<'a> {
    /// Those in the header state.
    pub header: &'a [Call<'a>],
    /// Those in the body state, after the turn.
    pub body: &'a [Call<'a>],
}
