//! What is taken of the workers, an answer of each at a time.

ghost use Rattle.std.specs.Prelude.{◌≡◌, ◌≤◌, ◌+◌, [], ◌++◌, false, List, length, vec_len, vec_capacity};
ghost use Rattle.std.specs.List.{list_any};
ghost use Rattle.mdp_crew.specs.TakenRounds.{all_finish, all_tell, all_took, is_finished, is_told, last_of, lasts, one_each};

use crate::crew::Post;
use mdp_lanes::LaneReceiver;
use mdp_reports::Answer;
use std::alloc::Allocator;
use std::sync::Wait;

/// Takes an answer of each worker.
pub fn take_round<R: Wait, A: Allocator + Copy>(
    rt: &R,
    posts: &mut [Post<A>],
    round: &mut Vec<Answer<A>, A>,
)
    requires room { vec_len round.old + length posts.old ≤ vec_capacity round.old }
    requires empty { round.old.items ≡ [] }
    ensures took { (length round.new.items ≡ length posts.old)
        × (posts.new ≡ all_took posts.old (one_each round.new.items)) }
    ensures room { vec_capacity round.new ≡ vec_capacity round.old }
{
    for post in posts.iter_mut() {
        round.push_reserved(post.answers.take(rt));
    }
}

// Returns whether an answer tells reports.
fn tells<A: Allocator>(answer: &Answer<A>) -> bool
    ensures { result ≡ is_told answer.now }
{
    matches!(answer, Answer::Tells(_))
}

// Returns whether an answer says that the worker has finished.
fn finishes<A: Allocator>(answer: &Answer<A>) -> bool
    ensures { result ≡ is_finished answer.now }
{
    matches!(answer, Answer::Finished)
}

/// Returns whether each answer of a round tells reports.
pub fn all_are_told<A: Allocator>(round: &[Answer<A>]) -> bool
    ensures { result ≡ all_tell round.now }
{
    round.iter().all(tells)
}

/// Returns whether each worker of a round has finished.
pub fn all_are_finished<A: Allocator>(round: &[Answer<A>]) -> bool
    ensures { result ≡ all_finish round.now }
{
    round.iter().all(finishes)
}

// Returns whether an answer of a round tells reports.
fn one_tells<A: Allocator>(round: &[Answer<A>]) -> bool
    ensures { result ≡ list_any is_told round.now }
{
    round.iter().any(tells)
}

// Takes a worker's next answer in the place of this one, unless this was its last.
fn take_next<R: Wait, A: Allocator + Copy>(
    rt: &R,
    answers: &mut LaneReceiver<Answer<A>, A>,
    answer: &mut Answer<A>,
)
    ensures { (more : List (Answer A)) ×
        (answers.new ≡ record answers.old { taken = answers.old.taken ++ more })
        × (answer.new ≡ last_of answer.old more) }
{
    if !tells(answer) {
        return;
    }
    *answer = answers.take(rt);
}

// Takes the next answer of each worker that has not ended.
fn drain_round<R: Wait, A: Allocator + Copy>(rt: &R, posts: &mut [Post<A>], round: &mut [Answer<A>])
    requires { length round.old ≡ length posts.old }
    ensures { (more : List (List (Answer A))) × (length more ≡ length posts.old)
        × (posts.new ≡ all_took posts.old more)
        × (round.new ≡ lasts round.old more) }
{
    for n in 0..posts.len() {
        take_next(rt, &mut posts[n].answers, &mut round[n]);
    }
}

/// Takes all workers' answers up to their last ones, after this round. It takes one of each at a time: where it took
/// all of one worker's first, the others would wait for room in their lanes, the arbiter for them, and that worker for
/// the arbiter.
pub fn drain_all<R: Wait, A: Allocator + Copy>(
    rt: &R,
    posts: &mut [Post<A>],
    round: &mut [Answer<A>],
)
    requires { length round.old ≡ length posts.old }
    ensures { (more : List (List (Answer A))) × (length more ≡ length posts.old)
        × (posts.new ≡ all_took posts.old more)
        × (list_any is_told (lasts round.old more) ≡ false) }
{
    for _ in rt.forever() {
        if !one_tells(round) {
            return;
        }
        drain_round(rt, posts, round);
    }
}
