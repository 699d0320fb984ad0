//! Calls of th_log. They are written for any object, and made at a watch channel of numbers at the end: at an object that is
//! known each call would have its whole contract.
use std::alloc::Global;
use th_log::{Compared, Diary, Kind, Logged, Object, Receipt, Segment, audit, close, laws, made};
use th_model::{Question, ReceiverVerb, RxId, SenderVerb, Start, TxId, WCall, WReply};
use th_seats::Share;
use th_watch::{PictureParts, Watch};

pub fn law() {
    laws::receives_tell::<u64>();
    laws::changes_tell::<u64>();
}

fn make<O: Object>(alloc: Global, object: O)
    requires { O.lawful }
{
    let _ = Logged::new(alloc, object, 7, 1);
}

fn look<O: Object>(logged: &Logged<O>) {
    let _ = logged.object();
    let _ = logged.start();
    let _ = logged.entry(7);
    let _ = logged.key();
    let _ = logged.total();
    let _ = logged.first();
    let _ = logged.len();
}

fn apply<O: Kind>(logged: &mut Logged<O>, share: &mut Share, call: O::Call)
    requires { O.lawful }
{
    if logged.ready(&call) {
        let _ = logged.apply(share, call);
    }
}

fn keep_event<O: Kind>(logged: &mut Logged<O>, share: &mut Share, call: O::Call)
    requires { O.lawful }
{
    if logged.ready(&call) {
        let _ = logged.keep(share, call);
    }
    let _ = logged.last_reply();
}

fn keep<O: Object>(logged: &mut Logged<O>)
    requires { O.lawful }
{
    let _ = logged.reserve(7);
    let _ = logged.cut();
    let one = logged.split();
    let other = logged.split();
    let _ = logged.rejoin(one, other);
}

fn end<O: Object>(one: Logged<O>, other: Logged<O>, shares: Vec<Share>) {
    let _ = one.finish();
    let _ = close(other, shares);
}

fn look_at_segment<O: Object>(segment: &Segment<O>) {
    let _ = segment.start();
    let _ = segment.entries();
    let _ = segment.entry(7);
    let _ = segment.key();
    let _ = segment.first();
    let _ = segment.len();
}

fn join<O: Compared>(one: Segment<O>, other: Segment<O>)
    requires lawful { O.lawful }
    requires exact { O.exact }
{
    let _ = Segment::join(one, other);
}

fn read_receipt<O: Object>(receipt: Receipt<O>) {
    let _ = receipt.place();
    let _ = receipt.call();
    let _ = receipt.reply();
    let _ = receipt.key();
    let _ = receipt.into_reply();
}

fn note<O: Object>(alloc: Global, receipt: Receipt<O>) {
    let mut diary = Diary::<O>::new(alloc);
    let _ = diary.reserve(1);
    let _ = diary.note(receipt);
    let _ = diary.receipts();
}

fn account<O: Compared>(alloc: Global, segment: &Segment<O>, diaries: &[Diary<O>])
    requires { O.exact }
{
    let _ = audit(alloc, segment, diaries);
}

fn ask<O: Object>(object: &O, call: &O::Call)
    requires { O.lawful }
{
    let _ = object.ready(call);
    let _ = object.foresee(call);
    let _ = O::copy_call(call);
    let _ = object.live();
    let _ = object.live_after(call);
    let _ = object.closed();
}

fn change<O: Kind>(object: &mut O, one: O::Call, other: O::Call)
    requires { O.lawful }
{
    let _ = object.apply(one);
    let _ = object.event(other);
}

fn look_up<K: Kind>(verb: SenderVerb<K::Value>, tx: TxId, rx: RxId) {
    let _ = K::by_sender(verb, tx);
    let _ = K::asked(Question::Readers, tx);
    let _ = K::by_receiver(ReceiverVerb::Left, rx);
    let _ = K::subscribing(Start::Tail, tx);
    let _ = K::resubscribing(rx);
    let _ = K::cloning(tx);
    let _ = K::last_of_sender(tx);
    let _ = K::last_of_receiver(rx);
}

fn tell<K: Kind>(channel: &K, call: &K::Call, reply: &K::Reply, tx: TxId, rx: RxId) {
    let _ = channel.has_sender(tx);
    let _ = channel.has_receiver(rx);
    let _ = channel.waits(call);
    let _ = K::made_tx(reply);
    let _ = K::made_rx(reply);
    let _ = K::ends(reply);
    let _ = K::is_news(call, reply);
    let _ = made::<K>(reply);
}

fn show<O: Object>(alloc: Global, object: &O)
    requires { O.lawful }
{
    let _ = object.picture(alloc);
}

fn compare<O: Compared>(call: &O::Call, reply: &O::Reply, state: &O::State)
    requires { O.exact }
{
    O::are_exact();
    let _ = O::same_call(call, call);
    let _ = O::same_reply(reply, reply);
    let _ = O::same_state(state, state);
}

// The calls of an object and of its log.
fn call_all<O: Compared + Kind>(
    alloc: Global,
    object: &mut O,
    logged: &mut Logged<O>,
    share: &mut Share,
    calls: (O::Call, O::Call, O::Call, O::Call),
    reply: &O::Reply,
    state: &O::State,
)
    requires lawful { O.lawful }
    requires exact { O.exact }
{
    look(logged);
    keep(logged);
    show(alloc, object);
    ask(object, &calls.0);
    compare::<O>(&calls.0, reply, state);
    apply(logged, share, calls.0);
    change(object, calls.1, calls.2);
    keep_event(logged, share, calls.3);
}

// The calls of what comes of a log.
fn call_pieces<O: Compared>(
    alloc: Global,
    one: Segment<O>,
    other: Segment<O>,
    diaries: &[Diary<O>],
    read: Receipt<O>,
    noted: Receipt<O>,
)
    requires lawful { O.lawful }
    requires exact { O.exact }
{
    look_at_segment(&one);
    account(alloc, &one, diaries);
    join(one, other);
    read_receipt(read);
    note(alloc, noted);
}

pub fn call_with_numbers(
    alloc: Global,
    light: &mut Watch<u64>,
    logged: &mut Logged<Watch<u64>>,
    share: &mut Share,
    calls: (WCall<u64>, WCall<u64>, WCall<u64>, WCall<u64>),
    reply: &WReply<u64>,
    state: &PictureParts<u64>,
) {
    call_all(alloc, light, logged, share, calls, reply, state);
}

pub fn tell_of_numbers(
    light: &Watch<u64>,
    call: &WCall<u64>,
    reply: &WReply<u64>,
    tx: TxId,
    rx: RxId,
) {
    tell(light, call, reply, tx, rx);
    look_up::<Watch<u64>>(SenderVerb::Send(7), tx, rx);
}

pub fn call_pieces_of_numbers(
    alloc: Global,
    one: Segment<Watch<u64>>,
    other: Segment<Watch<u64>>,
    diaries: &[Diary<Watch<u64>>],
    read: Receipt<Watch<u64>>,
    noted: Receipt<Watch<u64>>,
) {
    call_pieces(alloc, one, other, diaries, read, noted);
}

pub fn make_and_end_with_numbers(
    alloc: Global,
    light: Watch<u64>,
    one: Logged<Watch<u64>>,
    other: Logged<Watch<u64>>,
    shares: Vec<Share>,
) {
    make(alloc, light);
    end(one, other, shares);
}

pub fn resume_with_numbers(alloc: Global, state: PictureParts<u64>) {
    let _ = <Watch<u64> as Object>::resume(alloc, state);
}
