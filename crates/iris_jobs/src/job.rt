//! Gets, and the check of their answers.

ghost use Rattle.std.specs.Prelude.{◌≡◌, ℕ, List, IfOk, IfErr};
ghost use Rattle.iris_desk.specs.declared.out.Task.{Task as SpecTask};
ghost use Rattle.iris_jobs.specs.Jobs.{get_task, AnswerBrings, IsChecked};
ghost use Rattle.iris_name.specs.declared.note.Answer.TheVariants.{Given};
ghost use Rattle.iris_name.specs.declared.note.Expect.TheVariants.{Hash, Version};
ghost use Rattle.iris_jobs.specs.Keyed.{keys_of};
ghost use Rattle.iris_name.specs.Hmac.{block_key};

use iris_desk::{Doing, Task};
use iris_mac::{Keys, passes};
use iris_name::{Answer, Expect, Hash32, Name, NoMemory, PAGE_LEN, Page};
use iris_node::{Node, decode, hash_of};
use std::alloc::Global;
use std::marker::Model;

/// A get that is to be made.
#[derive(Drop)]
pub struct Job {
    who: u32,
    name: Name,
    since: u64,
    expect: Expect,
    master: [u8; 32],
}

impl Model for Job {
    ghost use Rattle.iris_jobs.specs.Jobs.{JobState};

    ghost Value = { JobState };

    ghost view = { λ a. record {
      who = a.who;
      name = a.name;
      since = a.since;
      expect = a.expect;
      master = a.master;
    } };
}

/// What a record holds.
#[derive(Drop)]
pub enum Brought {
    Node(Node),
    Page { version: u64, page: Page },
    Nothing,
}

/// A job with its answer, which is checked: it brings what its record holds, or nothing if it isn't the record that is expected.
#[derive(Drop)]
pub struct Checked {
    job: Job,
    answer: Answer,
    brought: Brought,
}

impl Model for Checked {
    ghost use Rattle.iris_jobs.specs.Jobs.{CheckedState, IsChecked};

    ghost Value = { CheckedState };

    ghost view = { λ a. record { job = a.job; answer = a.answer; brought = a.brought } };

    ghost invariant = { λ a.
        IsChecked (record { job = a.job; answer = a.answer; brought = a.brought }) };
}

impl Job {
    /// A get for a caller, by the portal of a master key.
    pub fn new(who: u32, name: Name, since: u64, expect: Expect, master: [u8; 32]) -> Job
        ensures { result ≡ record {
          who = who;
          name = name;
          since = since;
          expect = expect;
          master = master;
        } }
    {
        Job {
            who,
            name,
            since,
            expect,
            master,
        }
    }

    /// The caller's number.
    pub fn who(&self) -> u32
        ensures { result ≡ self.now.who }
    {
        self.who
    }

    /// The name to be got.
    pub fn name(&self) -> &Name
        ensures { result.now ≡ self.now.name }
    {
        &self.name
    }

    /// What it is at its caller's desk.
    pub fn task(&self) -> Task
        ensures { result ≡ get_task self.now }
    {
        Task {
            doing: Doing::Get,
            name: self.name,
            since: self.since,
        }
    }

    /// Checks an answer: a node's bytes have the hash that is expected and spell a node of this name, a block's pass for the version that
    /// is expected. Out of memory, job and answer are given back.
    pub fn check(self, alloc: Global, keys: &Keys, answer: Answer) -> Result<Checked, (Job, Answer)>
        requires { keys.now ≡ keys_of self.master }
        ensures job { IfOk result (λ checked. checked.job ≡ self) }
        ensures answer { IfOk result (λ checked. checked.answer ≡ answer) }
        ensures err { IfErr result (λ back. (back.0 ≡ self) × (back.1 ≡ answer)) }
    {
        match read_answer(alloc, keys, &self, &answer) {
            Ok(brought) => Ok(Checked {
                job: self,
                answer,
                brought,
            }),
            Err(NoMemory) => Err((self, answer)),
        }
    }

    /// The parts of a job.
    pub fn parts(&self) -> (u32, Name, u64, Expect)
        ensures who { result.0 ≡ self.now.who }
        ensures name { result.1 ≡ self.now.name }
        ensures since { result.2 ≡ self.now.since }
        ensures expect { result.3 ≡ self.now.expect }
    {
        (self.who, self.name, self.since, self.expect)
    }
}

impl Checked {
    /// The job.
    pub fn job(&self) -> &Job
        ensures { result.now ≡ self.now.job }
    {
        &self.job
    }

    /// What its check keeps.
    pub fn sound(&self)
        ensures { IsChecked self.now }
    {
        let _ = &self.job;
    }

    /// Hands the answer and what it brings out.
    pub fn into_parts(self) -> (Answer, Brought)
        ensures answer { result.0 ≡ self.answer }
        ensures brought { result.1 ≡ self.brought }
    {
        (self.answer, self.brought)
    }
}

// What an answer to a job brings.
fn read_answer(alloc: Global, keys: &Keys, job: &Job, answer: &Answer) -> Result<Brought, NoMemory>
    ensures { IfOk result (AnswerBrings keys.now.block job.now.name job.now.expect answer.now) }
{
    let Answer::Given(bytes) = answer else {
        return Ok(Brought::Nothing);
    };
    match job.expect {
        Expect::Hash(hash) => node_brought(alloc, &job.name, hash, bytes.as_slice()),
        Expect::Version(version) => {
            page_brought(alloc, keys, &job.name, version, bytes.as_slice())
        }
    }
}

// The node that bytes spell, where they have this hash and it has this name.
fn node_brought(alloc: Global, name: &Name, hash: Hash32, bytes: &[u8]) -> Result<Brought, NoMemory>
    ensures { IfOk result (λ b. (key : List ℕ) →
        AnswerBrings key name.now (Hash hash) (Given bytes.now) b) }
{
    if hash_of(bytes) != hash {
        return Ok(Brought::Nothing);
    }
    match decode(alloc, bytes)? {
        Some(node) if node.name() == *name => Ok(Brought::Node(node)),
        _ => Ok(Brought::Nothing),
    }
}

// The page of a block's record, where it passes for this version.
fn page_brought(
    alloc: Global,
    keys: &Keys,
    name: &Name,
    version: u64,
    bytes: &[u8],
) -> Result<Brought, NoMemory>
    ensures { IfOk result
        (AnswerBrings keys.now.block name.now (Version version) (Given bytes.now)) }
{
    let Name::Block { file, place } = *name else {
        return Ok(Brought::Nothing);
    };
    if !passes(keys, file, place, version, bytes) {
        return Ok(Brought::Nothing);
    }
    let (block, _) = bytes.split_at(PAGE_LEN);
    let page = Page::of(alloc, block)?;
    Ok(Brought::Page { version, page })
}
