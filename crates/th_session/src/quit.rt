//! The end of all that an actor holds. What a desk does not spend is let go: a desk refuses the last event only of a handle that is
//! not live, and then its share came back when it was spent.
ghost use Rattle.std.specs.Prelude.{◌≡◌, []};
ghost use Rattle.std.specs.Option.{option_map};
ghost use Rattle.th_session.specs.Held.{Holding, held, numbers};
ghost use Rattle.th_session.specs.Script.{Answer, Plays, Replied, Script, spend_all, spend_receiver, spend_sender};

use crate::handles::Handles;
use th_lines::Reply;
use th_numbered::ByNumber;
use th_registry::{Desk, TopicId};

// The last event of a sender, if there is one.
fn leave_sender<D: Desk>(desk: &mut D, topic: TopicId, sender: Option<D::Tx>)
    ensures { (next : Script) (answer : Answer) (after : Holding) (end : D) →
        Plays D.says next desk.new answer after end →
        let senders = spend_sender topic.0 (option_map D.tx sender) next in
        Plays D.says senders desk.old answer after end }
{
    if let Some(sender) = sender {
        let _ = desk.spend_sender(topic, sender);
    }
}

// The last event of a receiver, if there is one.
fn leave_receiver<D: Desk>(desk: &mut D, topic: TopicId, receiver: Option<D::Rx>)
    ensures { (next : Script) (answer : Answer) (after : Holding) (end : D) →
        Plays D.says next desk.new answer after end →
        let receivers = spend_receiver topic.0 (option_map D.rx receiver) next in
        Plays D.says receivers desk.old answer after end }
{
    if let Some(receiver) = receiver {
        let _ = desk.spend_receiver(topic, receiver);
    }
}

// The last events of the handles on one topic, the sender's first.
fn leave<D: Desk>(desk: &mut D, topic: TopicId, handles: Handles<D::Tx, D::Rx>)
    ensures { (next : Script) (answer : Answer) (after : Holding) (end : D) →
        let s = numbers D.tx D.rx handles in
        let both = spend_sender topic.0 s.sender (spend_receiver topic.0 s.receiver next) in
        Plays D.says next desk.new answer after end → Plays D.says both desk.old answer after end }
{
    let Handles { sender, receiver } = handles;
    leave_sender(desk, topic, sender);
    leave_receiver(desk, topic, receiver);
}

// Spends each handle, topics in order of opening, whatever is said of it.
pub(crate) fn quit<D: Desk>(handles: &mut ByNumber<Handles<D::Tx, D::Rx>>, desk: &mut D)
    ensures spent { Plays D.says (spend_all (held D.tx D.rx handles.old.entries)) desk.old
        (Replied Reply.Bye) [] desk.new }
    ensures none { handles.new.entries ≡ [] }
{
    while let Some((topic, both)) = handles.pop_first() {
        leave(desk, TopicId(topic), both);
    }
}
