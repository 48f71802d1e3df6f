//! A call of io_uring_enter(2) for C: `wulgach_enter_begin` and `wulgach_enter_next` of the header.
ghost use Rattle.std.specs.Prelude.{◌≡◌, pos, negsuc, List, [], ◌∷◌, Option, Some, None, true, false};
ghost use Rattle.uring_enter.specs.declared.call.asked.Asked.{Asked};
ghost use Rattle.uring_enter.specs.declared.call.reply.Reply.{Reply};
ghost use Rattle.uring_enter.specs.Call.Due.{due, is_reply_to};
ghost use Rattle.uring_ffi_values.specs.LayerWords.EnterForm.{on_ring_of, reply_of, words_of_command, AreAfter};

use uring_enter::Enter;
use uring_ffi_values::enter_words::{
    AskedWords, CommandWords, EnterWords, ReplyWords, command_words, enter_words,
};

/// Begins a call, and writes what it wants first. Returns 0, or -22 if there is no such policy; then nothing is written.
#[unsafe(no_mangle)]
pub extern "C" fn wulgach_enter_begin(
    call: &mut EnterWords,
    asked: &AskedWords,
    command: &mut CommandWords,
) -> i32
    ensures begun { (a : Asked) → on_ring_of asked.now ≡ Some a → (result ≡ pos 0)
        × AreAfter a [] call.new × (command.new ≡ words_of_command (due a [])) }
    ensures refused { on_ring_of asked.now ≡ None → (result ≡ negsuc 21)
        × (call.new ≡ call.old) × (command.new ≡ command.old) }
{
    let Some(asked) = asked.on_ring() else {
        return -22;
    };
    let enter = Enter::begin(asked);
    *command = command_words(enter.wanted());
    *call = enter_words(enter);
    0
}

/// Takes a reply of what became of what a call wants, and writes what it wants then. Returns 0, or -22 if the reply doesn't answer it; then nothing is written.
#[unsafe(no_mangle)]
pub extern "C" fn wulgach_enter_next(
    call: &mut EnterWords,
    reply: &ReplyWords,
    command: &mut CommandWords,
) -> i32
    ensures next { (a : Asked) (log : List Reply) (r : Reply) → AreAfter a log call.old
        → reply_of reply.now ≡ Some r → is_reply_to (due a log) r ≡ true → (result ≡ pos 0)
        × AreAfter a (r ∷ log) call.new × (command.new ≡ words_of_command (due a (r ∷ log))) }
    ensures wrong { (a : Asked) (log : List Reply) (r : Reply) → AreAfter a log call.old
        → reply_of reply.now ≡ Some r → is_reply_to (due a log) r ≡ false → (result ≡ negsuc 21)
        × (call.new ≡ call.old) × (command.new ≡ command.old) }
    ensures none { reply_of reply.now ≡ None → (result ≡ negsuc 21)
        × (call.new ≡ call.old) × (command.new ≡ command.old) }
{
    let Some(mut enter) = call.enter() else {
        return -22;
    };
    let Some(reply) = reply.reply() else {
        return -22;
    };
    let Ok(wanted) = enter.next(reply) else {
        return -22;
    };
    let words = enter_words(enter);
    *command = words.wanted;
    *call = words;
    0
}
