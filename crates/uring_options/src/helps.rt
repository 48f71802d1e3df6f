//! What the help of each command says of its lines.

/// The lines of a trace, for its help.
pub(crate) const STEPS: &str = "\
Steps, a line each, and their answers:
  fill SLOT nop UD FLAGS                   write an entry: ok, no slot, busy
  fill SLOT fsync UD FLAGS FD
  fill SLOT read UD FLAGS FD OFF LEN
  fill SLOT write UD FLAGS FD OFF HEX
  fill SLOT cancel UD FLAGS TARGET
  fill SLOT cancelall UD FLAGS TARGET
  fill SLOT op CODE UD FLAGS
  fill SLOT raw RAW
  index WORD     stage a word: ok, full
  tail           publish what is staged: tail N
  head           load the submission ring's head: head N
  begin COUNT    open a call: call N, closed, in call, spent, again
  take           copy the next entry: entry UD, dropped, no more, no call
  end            close the call: taken N dropped N head N, no call, not all
  issue NUM      issue a request: run, ended RES, not ready, running, unknown
  finish NUM     finish a running request: ended RES, not running
  flush          move from the overflow list into the ring: moved N
  cqtail         load the completion ring's tail: tail N
  reap           copy the next completion: cqe UD RES DATA, none
  cqhead         store the completion ring's head: head N
  close          close the ring: ok, in call
  next           name the request to be issued next: next N, none
Any other line is answered bad line, and is no step; with --strict the first one
ends the trace, with status 4, and is named on standard error. With --echo a step
is written before its answer, STEP = ANSWER, so that check reads what is written.

Requests are numbered from 0 on, in the order in which they are accepted, over
all calls: NUM is that number. A dropped word has none, a faulty entry has one.

UD, TARGET, OFF and NUM are numbers up to 2^64 - 1, SLOT, WORD, COUNT and LEN
up to 2^32 - 1, CODE up to 255; FD has 32 bits and a sign. FLAGS is - or letters:
D drain, L link, H hard link, A async, S skip success. HEX is - or 1 to 64 bytes
and RAW 128 bytes, in lower case hexadecimal.";

/// The reasons of `uring explain`, for its help.
pub(crate) const REASONS: &str = "\
Steps and answers are those of trace. After an answer to issue, and after
not running, stand two spaces, # and the reason. The answer running has none.
The reasons:
  never accepted, has ended, waits for nobody
  waits for M: a member of its group
  waits for M: M's group drains
  waits for M: its own group drains
  doomed: a fault of its entry
  doomed: M of its group has a fault
  doomed: M failed before it
  doomed: a cancel chose it
  of a cancel of one: chose M, M is running, found none
  of a cancel of all: chose M M .., found none
With --linux also waits for M: its group is deferred (a drain waits before it),
and doomed: a drain, which this ring refuses.
A line that is empty or begins with # is passed over. Any other that is no step
is answered bad line, and told on standard error with its number and what is
wrong with it; the status at the end is then 4. The first line may say the
set-up, as for check. A recorded trace is explained with the ends that it has,
which is told once.

Lines that ask how things stand, and their answers:
  show counts    accepted N outstanding N running N posted N reaped N
  show sizes     sq N cq N files N start N
  show overflow  overflow N, and each completion that waits there
  show requests  requests N, and each outstanding one: , NUM UD OP: REASON
  show why NUM   how request NUM stands, in the words of the reasons
  show file FD   len N writes N synced N, or no file

With one of these no answers are written; of several the first listed counts:
  --graph        when the input ends, the outstanding requests as a graph for
                 Graphviz's dot: an ellipse runs, an octagon is doomed, a box
                 waits, a diamond may start; with --at N as they were after
                 line N
  --timeline     when the input ends, a row for each request: the lines at which
                 it was accepted, started and ended, and its completion posted
                 and reaped
  --page         when the input ends, a page of HTML that draws the requests
                 line by line, and needs no network
  --json         the data of that page, as JSON";

/// The lines of `uring check`, for its help.
pub(crate) const RECORDS: &str = "\
A line is STEP = ANSWER, both as in trace. One that is empty or begins with # is
passed over. All input is read before anything is written:
  lawful: N steps    each answer is called for by the lines before it
  line K: STEP = ANSWER
  wanted: ANSWER     the first whose answer isn't, and what is called for there:
                     one answer, call N or again, or ended RES or ended -12
  why: NUM REASON    of an issue or a finish, how its request stands, in the
                     words of explain
  whom: REASON       of a cancel that may be carried out, whom it chooses
  whose: NUM, user data UD
                     of a completion that is wanted, which request's it is
  line K: bad line   before any such line, this one is no step with an answer
  why: WORDS         what is wrong with it
The status is 0, 3 and 4 in this order.

The first line may say the set-up, which then counts in place of the options:
  # setup --sq N --cq N --files N --start N
and --stop, --linux or both after it. One that begins with # setup and is no such line is bad.

With --all the lines after a wrong one are looked at too, and each wrong one is
told. The one answer that was called for then counts as given; if there are more
than one, the step counts as not made. A bad line ends the check even so.

With --apart the trace is that of a ring without files: a running request may
end with any result, ended RES, and no data is given: reap = cqe UD RES -. What
is wanted there is: an end. With --results that is so too, but it ends with what
its operation may give. That is 0 of a no-op, 0 or an error of an fsync, and 0 to
the length or an error of a read or a write. An error is -1 to -4095, and not
-125. What is wanted there is of the form: a result of a write of 5. A completion
may have data, at most as many bytes as its result says, which aren't judged:
reap = cqe 1 2 6162.

With --early-effects each operation takes effect at some moment between its issue
and its finish, and not at the finish alone. Such moments are looked for, so that
each result, and the data of each completion that is reaped, is what the files
gave then. If there are none, that is told, and the status is 3. With --most N the
search gives up after N moves. No other option of a check counts then.

With --page a page of HTML is written in place of this, which draws the lines up
to the first that is wrong or bad, and with --json its data; --page goes before
--json. The status stays the same. --all counts for nothing then. With --apart or
--results no file is drawn.";

/// The lines of a play, for its help.
pub(crate) const ITEMS: &str = "\
All of the input is read first. Each line is an item, or is empty and ends a
call, as the end of the input does. A call without items is passed over. Items:
  nop UD FLAGS                             an entry
  fsync UD FLAGS FD
  read UD FLAGS FD OFF LEN
  write UD FLAGS FD OFF HEX
  cancel UD FLAGS TARGET
  cancelall UD FLAGS TARGET
  op CODE UD FLAGS
  raw RAW
  bad WORD                                 a word that names no slot
The tokens of an entry are those of trace. WORD has 32 bits and isn't below the
entries of the submission ring, which are the most items of a call.

The application, the dispatcher and each worker have a thread of their own.
Between application and dispatcher are lanes, or with --shared the words of the
rings, which both of them load and store. The calls are submitted in order and
the ring is closed; once nothing is left to do, the completions are written,
sorted by user data, result and bytes:
  cqe UD RES DATA
and then how many requests were accepted, and how many words were dropped:
  taken N dropped N
A bad line, or a call that is too long, is told on standard error with its
number, counted from 1, and nothing is played; the status is then 1.";

/// What `uring crash` writes, for its help.
pub(crate) const IMAGES: &str = "\
Steps are those of trace; no answers are written. A line that is empty or begins
with # is passed over. All input is read; the steps of its first lines are made,
up to that of --at, and then the power fails. The first line may say the set-up,
as for check, and the answers of a recorded trace are left out. Of the file of --file is written
  len N data HEX                               what is left of it
  write NUM at OFF: safe, K of N bytes         of each write that began, in
  write NUM at OFF: not safe, K of N bytes     order: K of its bytes stand there
NUM is the request, and HEX is - or two digits a byte.

A write is safe if it had finished when an fsync of the file was issued that has
finished since. Without --seed the safe writes alone are left, and with it some
of the others too, whole or in part: for each N another image, and each is one
that a crash may leave. With --unit 512 each 512 bytes of the file are left as
a whole. A write that ended with an error may be left too.

With one of these another thing is written; of several the first listed counts:
  --count        images N: how many different images a crash may leave
  --all          each of them as above, once, and how many they are; with more
                 than --most nothing, and the status is 3
  --holds -- OFFSET HEX
                 kept at OFFSET: HEX if each image has these bytes there; else
                 not kept at OFFSET: HEX, an image that hasn't, and its writes,
                 and the status is 1

With --each it is written after each line in turn, below a line
  after line K:
and the status is that of the last. Each is found anew, from the first line on.

A bad line is told on standard error with its number, and nothing is written;
the status is then 4. It is 2 if there is no such file.";

/// What `uring outcomes` writes, for its help.
pub(crate) const CLAIMS: &str = "\
Calls are those of play. Each outcome is a line: the completions that some order
posts, and no others, with a comma and a blank between, or none. The lines are
sorted by their bytes, and then comes how many they are:
  cqe 1 0 -, cqe 2 0 -
  cqe 2 0 -, cqe 1 0 -
  outcomes 2
With --contents the files follow, each as it is left:
  file FD len N writes N synced N data HEX
With --results an outcome is what a program sees that sorts its completions, and
how many orders it has stands after it:
  cqe 1 0 -, cqe 2 0 -  # orders 2

A LINE after -- is completions, and files, as above. An outcome shows it if its
completions and files have these among them, in this order.
  uring outcomes --never -- LINE ..            no outcome shows any LINE
  uring outcomes --always -- LINE ..           each outcome shows some LINE
The status is 0 if it is so. It is 1 if it isn't, and a history that comes to
such an outcome is written, as check reads it. With --explain N the history of
line N is written.

With --most N the walk stops after N paths: what was found is right, and the last
line says that there may be more. The status is 3 then, if it isn't known.

With --crash the power fails at any moment, and each line is what it may show: the
completions posted by then, in their order, and what may be left of each file:
  cqe 1 0 -, file 0 len 0 data -, file 1 len 0 data -
  none, file 0 len 0 data -, file 1 len 0 data -
  crashes 2
A request may run then, and any part of a write may be left that isn't safe, as
crash has it: with --unit 512 each 512 bytes of a file as a whole. A LINE is shown
as above; where a claim isn't so, a line that shows it is written, and the status
is 1. --results, --contents and --explain count for nothing. It walks all orders
of starts and ends, so it is for small calls: four loose requests, or six in
chains. If more than 1000 images may be left of a file, the status is 3.";

/// What `uring fill` reads and writes, for its help.
pub(crate) const SEEN: &str = "\
Lines are those of check --apart, but without the steps that can't be seen from
outside: issue, finish and flush. They are put in, so that each answer is called
for by the lines before it. At the end all requests have ended, and all their
completions were reaped. Each running request ends as its operation may:
  a no-op with 0; an fsync with 0 or an error; a read or a write with 0 to its
  length or an error; -125 is nobody's own error
The history is written as check --apart reads it, and the status is 0.

If there is none the status is 1. One that comes far is written, and after it the
first line that it doesn't show, or the end:
  # none shows: STEP = ANSWER
With --most N the search gives up after N histories. What came furthest by then is
written, with # gave up before: STEP = ANSWER, and the status is 3.

A line that is empty or begins with # is passed over, but the first one may say
the set-up, as for check. A line that is no step with an answer, or one that
can't be seen, is told on standard error with its number, and nothing is
written; the status is then 4.";
