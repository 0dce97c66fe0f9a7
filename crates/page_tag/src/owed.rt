//! Jobs that are owed: the block of a page stays where it is kept until the page is made of it.
ghost use Rattle.std.specs.Prelude.{◌≡◌, Some};
ghost use Rattle.ufs_spec.specs.Pages.{IsTag, mark_bytes, seal_page};
ghost use Rattle.ufs_spec.specs.declared.flash.Job.TheVariants as job;

use crate::jobs::UnsealedJob;
use crate::mark::mark_body;
use crate::page::seal;
use crate::zeros::ZeroSeal;
use std::marker::Model;
use ufs_spec::{Block, Fence, Job, Numbers, Page, Place, Tag};

/// What a die is told to do, with what its page is made of.
#[derive(Drop)]
enum Owed<'a> {
    Program {
        place: Place,
        tag: Tag,
        body: &'a Block,
        zeros: &'a ZeroSeal,
    },
    Mark {
        place: Place,
        tag: Tag,
        numbers: &'a Numbers,
        fence: Option<Fence>,
    },
    Read(Place),
    Erase {
        die: u8,
        block: u16,
    },
}

/// A job of a die that is owed. It refers to what its page, if it is a program, is made of, so it is
/// handed on without a block. Contracts see the job that it becomes once its page is sealed.
#[derive(Drop)]
pub struct OwedJob<'a> {
    owed: Owed<'a>,
}

impl<'a> Model for OwedJob<'a> {
    ghost use Rattle.ufs_spec.specs.declared.flash.Job.{Job};

    ghost Value = { Job };

    ghost use Rattle.page_tag.specs.Owed.{HasTag, job_owed};

    ghost view = { λ j. job_owed j.owed };

    ghost invariant = { λ j. HasTag j.owed };
}

impl<'a> OwedJob<'a> {
    /// The program of a page with this tag and this block, which may well be zeros.
    pub fn program(zeros: &'a ZeroSeal, place: Place, tag: Tag, body: &'a Block) -> OwedJob<'a>
        requires { IsTag tag }
        ensures { result ≡ job.Program place (seal_page tag body.now) }
    {
        OwedJob {
            owed: Owed::Program {
                place,
                tag,
                body,
                zeros,
            },
        }
    }

    /// The program of the page of a mark with this tag, these numbers and this fence.
    pub fn mark(place: Place, tag: Tag, numbers: &'a Numbers, fence: Option<Fence>) -> OwedJob<'a>
        requires { IsTag tag }
        ensures { result ≡ job.Program place (seal_page tag (mark_bytes numbers.now fence)) }
    {
        OwedJob {
            owed: Owed::Mark {
                place,
                tag,
                numbers,
                fence,
            },
        }
    }

    /// The read of this page.
    pub fn read(place: Place) -> OwedJob<'a>
        ensures { result ≡ job.Read place }
    {
        OwedJob {
            owed: Owed::Read(place),
        }
    }

    /// The erase of this block of the die.
    pub fn erase(die: u8, block: u16) -> OwedJob<'a>
        ensures { result ≡ job.Erase die block }
    {
        OwedJob {
            owed: Owed::Erase { die, block },
        }
    }

    /// The job. If it is a program its page is sealed, which takes one SHA-256; that of 64 bytes
    /// alone where the block is zeros. There is always one: it is handed out as an answer of
    /// `Device::take` is, so that its page is not copied into one.
    pub fn sealed(&self) -> Option<Job>
        ensures { result ≡ Some self.now }
    {
        match &self.owed {
            Owed::Program {
                place,
                tag,
                body,
                zeros,
            } => {
                return Some(program_sealed(*place, tag, body, zeros));
            }
            Owed::Mark {
                place,
                tag,
                numbers,
                fence,
            } => {
                return mark_answer(*place, tag, numbers, *fence);
            }
            Owed::Read(place) => {
                return Some(Job::Read(*place));
            }
            Owed::Erase { die, block } => {
                return Some(Job::Erase {
                    die: *die,
                    block: *block,
                });
            }
        }
    }

    /// The same job with a block of its own: its page can be sealed where what it is made of is out of
    /// reach.
    pub fn unsealed(&self) -> Option<UnsealedJob>
        ensures { result ≡ Some self.now }
    {
        match &self.owed {
            Owed::Program {
                place,
                tag,
                body,
                zeros,
            } => {
                return Some(UnsealedJob::program_with(zeros, *place, tag, body));
            }
            Owed::Mark {
                place,
                tag,
                numbers,
                fence,
            } => {
                return Some(mark_unsealed(*place, tag, numbers, *fence));
            }
            Owed::Read(place) => {
                return Some(UnsealedJob::read(*place));
            }
            Owed::Erase { die, block } => {
                return Some(UnsealedJob::erase(*die, *block));
            }
        }
    }
}

// The program of a page with this tag and this block. This function fills all of the page's room and has
// no other arm: so the compiler needs no room for it beside that of the answer.
fn program_sealed(place: Place, tag: &Tag, body: &Block, zeros: &ZeroSeal) -> Job
    requires { IsTag tag.now }
    ensures { result ≡ job.Program place (seal_page tag.now body.now) }
{
    let spare = zeros.spare(tag, body);
    Job::Program(place, Page { body: *body, spare })
}

// The program of a mark as an answer. Its room is set here, and not for each job.
fn mark_answer(place: Place, tag: &Tag, numbers: &Numbers, fence: Option<Fence>) -> Option<Job>
    requires { IsTag tag.now }
    ensures { result ≡ Some (job.Program place (seal_page tag.now (mark_bytes numbers.now fence))) }
{
    Some(mark_sealed(place, tag, numbers, fence))
}

// The program of a mark. It is rare, and its block is in no frame of other jobs.
#[inline(never)]
fn mark_sealed(place: Place, tag: &Tag, numbers: &Numbers, fence: Option<Fence>) -> Job
    requires { IsTag tag.now }
    ensures { result ≡ job.Program place (seal_page tag.now (mark_bytes numbers.now fence)) }
{
    Job::Program(place, seal(tag, &mark_body(numbers, fence)))
}

// The same, whose page is sealed later.
#[inline(never)]
fn mark_unsealed(place: Place, tag: &Tag, numbers: &Numbers, fence: Option<Fence>) -> UnsealedJob
    requires { IsTag tag.now }
    ensures { result ≡ job.Program place (seal_page tag.now (mark_bytes numbers.now fence)) }
{
    UnsealedJob::program(place, tag, &mark_body(numbers, fence))
}
