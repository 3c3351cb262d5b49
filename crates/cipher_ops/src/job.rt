//! A work on an operation, which is run apart from the service.

ghost use Rattle.cipher_ops.specs.Running.{CanRun};

use crate::room::{JobRoom, Work};
use crate::state::CipherState;
use tags::{Bytes, Code};

/// A work on an operation, with all that it needs: it sees nothing else, and takes no memory.
///
/// `JobFor` says which work on which operation it is.
#[derive(Drop)]
pub struct Job {
    state: CipherState,
    ticket: u64,
    room: JobRoom,
    ghost can_run: { ∥ CanRun state room ∥₁ },
}

/// What a job comes back with.
#[derive(Drop)]
pub struct Done {
    /// The number that the job was given
    pub ticket: u64,
    /// The operation as it goes on; none exactly after its last work
    pub state: Option<CipherState>,
    /// The output, or `VerificationFailed` for a tag or mac that does not match, or `InvalidKeyArgument` for a padding
    /// that is none
    pub result: Result<Bytes, Code>,
}

impl Job {
    ghost use Rattle.std.specs.Prelude.{◌≡◌, ℕ, Bool, true, List, length, not, is_some, IfErr};
    ghost use Rattle.tags.specs.declared.plan.Plan.{Plan};
    ghost use Rattle.cipher_ops.specs.declared.room.Work.{Work};
    ghost use Rattle.cipher_ops.specs.Running.{IsRoom, MayCome, CanRun, is_last};
    ghost use Rattle.cipher_ops.specs.Standing.{StandsFor};
    ghost use Rattle.cipher_ops.specs.Jobs.{JobFor, ComesTo, is_refusal, ticket_of, work_of};

    /// A job on a state and with a room for the state's plan, flag and text length. Additional data comes only for GCM and
    /// before any byte of text, and the last only where the whole text has a length that its plan allows.
    pub fn new(state: CipherState, ticket: u64, room: JobRoom) -> Job
        requires { ∥ CanRun state room ∥₁ }
        ensures job { (plan : Plan) (limited : Bool) (key nonce aad text : List ℕ) (work : Work) → StandsFor state plan limited key nonce aad text →
            IsRoom room plan limited (length text) work → MayCome plan text work → JobFor result plan limited key nonce aad text work }
        ensures ticket { ticket_of result ≡ ticket }
        ensures work { work_of result ≡ room.work }
    {
        Job {
            state,
            ticket,
            room,
        }
    }

    /// Does the work. What comes back is what `ComesTo` says of it, whatever else happens meanwhile; an output is refused with
    /// `VerificationFailed` or `InvalidKeyArgument` alone.
    pub fn run(self) -> Done
        ensures comes { (plan : Plan) (limited : Bool) (key nonce aad text : List ℕ) (work : Work) → JobFor self plan limited key nonce aad text work →
            ComesTo result plan limited key nonce aad text work }
        ensures ticket { result.ticket ≡ ticket_of self }
        ensures ends { is_some result.state ≡ not (is_last (work_of self)) }
        ensures codes { IfErr result.result (λ code. is_refusal code ≡ true) }
    {
        let Job {
            mut state,
            ticket,
            room,
        } = self;
        let JobRoom { work, out, nothing } = room;
        match work {
            Work::Aad { input } => {
                state.aad(input.as_slice());
                Done {
                    ticket,
                    state: Some(state),
                    result: Ok(nothing),
                }
            }
            Work::Text { input } => {
                let bytes = state.text(input.as_slice(), out, nothing);
                Done {
                    ticket,
                    state: Some(state),
                    result: Ok(bytes),
                }
            }
            Work::Last { input, signature } => Done {
                ticket,
                state: None,
                result: state.last(input.as_slice(), signature, out),
            },
        }
    }
}
