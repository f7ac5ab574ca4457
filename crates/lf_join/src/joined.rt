//! The joined environment of a text.
use lf_core::{ConstInfo, Name};
use lf_msg::Message;
use lf_text::Text;
use std::marker::Model;

/// What a text comes to: itself, the units of each of its parts, all its constants, of which the first `base` are the
/// base's, the names of the realized ones, and its messages, all in order.
#[derive(Drop)]
pub struct Joined {
    pub text: Text,
    pub budget: u64,
    pub base: u32,
    pub constants: Vec<ConstInfo>,
    pub realized: Vec<Name>,
    pub messages: Vec<Message>,
}

impl Model for Joined {
    ghost use Rattle.std.specs.Coded.{codes};
    ghost use Rattle.lf_core.specs.Codes.{coded_term};
    ghost use Rattle.lf_document.specs.Joined.{Joined as JoinedValue};

    ghost Value = { JoinedValue };

    ghost coded = { Prim.hlevel (codes, coded_term) };

    ghost view = { λ j. record {
      text = j.text;
      budget = j.budget;
      base = j.base;
      constants = j.constants.items;
      realized = j.realized.items;
      messages = j.messages.items;
    } };
}
