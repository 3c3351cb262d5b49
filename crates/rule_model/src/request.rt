//! What a client asks for.

ghost use Rattle.std.specs.Prelude.{◌≡◌, ◌↔◌, true, IsSome, IfSome};
ghost use Rattle.rule_model.specs.Acts.{is_asked};

use crate::Act;
use std::marker::Model;

/// An act other than a leave and a restart, which the service makes by itself. It is seen as the act.
#[derive(Debug, Drop)]
pub struct Request {
    act: Act,
    ghost asked: { is_asked act ≡ true },
}

impl Model for Request {
    ghost use Rattle.rule_model.specs.declared.event.Act.{Act};

    ghost Value = { Act };

    ghost view = { λ request. request.act };
}

impl Request {
    /// The request for an act; a leave and a restart are none. It takes no memory.
    pub fn of(act: Act) -> Option<Request>
        ensures found { IfSome result (λ request. request ≡ act) }
        ensures some { IsSome result ↔ (is_asked act ≡ true) }
    {
        if act.is_asked() {
            Some(Request { act })
        } else {
            None
        }
    }

    /// The act. It takes no memory.
    pub fn act(&self) -> &Act
        ensures act { result.now ≡ self.now }
        ensures asked { is_asked result.now ≡ true }
    {
        &self.act
    }

    /// The act, given away. It takes no memory.
    pub fn into_act(self) -> Act
        ensures act { result ≡ self }
        ensures asked { is_asked result ≡ true }
    {
        let Request { act } = self;
        act
    }
}
