//! The slots that messages stand in.
ghost use Rattle.std.specs.Prelude.{◌≡◌, IfSome, IfNone, None};
ghost use Rattle.fy_net.specs.Net.{Rises, body_of};
ghost use Rattle.fy_net.specs.Slots.{messages_of, there_of, IsThereAt};

use crate::Message;

/// A message's slot. Once the message is taken out the slot is vacated, and stays until the pool
/// clears it away.
#[derive(Clone, Copy)]
pub(crate) struct Slot {
    pub(crate) message: Message,
    /// Whether the message is still in flight.
    pub(crate) there: bool,
}

/// The place of the message in flight with a number.
pub(crate) fn place_there(slots: &[Slot], number: u64) -> Option<usize>
    requires { Rises 0 (messages_of slots.now) }
    ensures found { IfSome result (λ i. IsThereAt slots.now number i) }
    ensures missing { IfNone result (body_of (there_of slots.now) number ≡ None) }
{
    let Ok(place) = slots.binary_search_by_key(&number, |slot| slot.message.number) else {
        return None;
    };
    slots[place].there.then_some(place)
}
