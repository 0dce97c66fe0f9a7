//! Jobs whose page is sealed later, and the tags of pages that were read: what a device leaves to be
//! hashed outside of it.
ghost use Rattle.std.specs.Prelude.{◌≡◌};
ghost use Rattle.ufs_spec.specs.Pages.{IsTag, seal_page};
ghost use Rattle.ufs_spec.specs.declared.flash.Job.TheVariants as job;
ghost use Rattle.page_tag.specs.Jobs.{IsTagRead};

use crate::page::{sealed_tag, spare_with};
use crate::zeros::ZeroSeal;
use std::marker::Model;
use ufs_spec::{Block, Job, Outcome, Page, Place, Tag};

/// What a die is told to do, before a page is sealed.
#[derive(Drop)]
enum Order {
    Program {
        place: Place,
        tag: Tag,
        body: Block,
        zeros: Option<ZeroSeal>,
    },
    Read(Place),
    Erase {
        die: u8,
        block: u16,
    },
}

/// A job of a die whose page, if it is a program, is sealed later. Contracts see the job that it
/// becomes then.
#[derive(Drop)]
pub struct UnsealedJob {
    order: Order,
}

impl Model for UnsealedJob {
    ghost use Rattle.ufs_spec.specs.declared.flash.Job.{Job};

    ghost Value = { Job };

    ghost use Rattle.page_tag.specs.Jobs.{IsSealable, job_sealed};

    ghost view = { λ j. job_sealed j.order };

    ghost invariant = { λ j. IsSealable j.order };
}

impl UnsealedJob {
    /// The program of this page with this tag and this block.
    pub fn program(place: Place, tag: &Tag, body: &Block) -> UnsealedJob
        requires { IsTag tag.now }
        ensures { result ≡ job.Program place (seal_page tag.now body.now) }
    {
        UnsealedJob::program_by(None, place, tag, body)
    }

    /// The same, where the block may well be zeros: then its page is sealed in less time.
    pub fn program_with(zeros: &ZeroSeal, place: Place, tag: &Tag, body: &Block) -> UnsealedJob
        requires { IsTag tag.now }
        ensures { result ≡ job.Program place (seal_page tag.now body.now) }
    {
        UnsealedJob::program_by(Some(zeros.another()), place, tag, body)
    }

    // The program of this page with this tag and this block, and what its page is sealed with.
    fn program_by(zeros: Option<ZeroSeal>, place: Place, tag: &Tag, body: &Block) -> UnsealedJob
        requires { IsTag tag.now }
        ensures { result ≡ job.Program place (seal_page tag.now body.now) }
    {
        UnsealedJob {
            order: Order::Program {
                place,
                tag: *tag,
                body: *body,
                zeros,
            },
        }
    }

    /// The read of this page.
    pub fn read(place: Place) -> UnsealedJob
        ensures { result ≡ job.Read place }
    {
        UnsealedJob {
            order: Order::Read(place),
        }
    }

    /// The erase of this block of the die.
    pub fn erase(die: u8, block: u16) -> UnsealedJob
        ensures { result ≡ job.Erase die block }
    {
        UnsealedJob {
            order: Order::Erase { die, block },
        }
    }

    /// The job. If it is a program its page is sealed, which takes one SHA-256; that of 64 bytes
    /// alone where the block is zeros and [`UnsealedJob::program_with`] made the job. Each arm returns
    /// by itself: where arms join, a page is copied.
    pub fn sealed(&self) -> Job
        ensures { result ≡ self.now }
    {
        match &self.order {
            Order::Program {
                place,
                tag,
                body,
                zeros,
            } => {
                let spare = spare_by(zeros, tag, body);
                return Job::Program(*place, Page { body: *body, spare });
            }
            Order::Read(place) => {
                return Job::Read(*place);
            }
            Order::Erase { die, block } => {
                return Job::Erase {
                    die: *die,
                    block: *block,
                };
            }
        }
    }
}

// The spare bytes of the page of a tag and a block.
fn spare_by(zeros: &Option<ZeroSeal>, tag: &Tag, body: &Block) -> [u8; 96]
    requires { IsTag tag.now }
    ensures { result ≡ (seal_page tag.now body.now).spare }
{
    match zeros {
        Some(zeros) => zeros.spare(tag, body),
        None => spare_with(tag, body),
    }
}

/// The tag of the page that a job has read, as [`sealed_tag`] has it; `None` if no page was read. It
/// takes one SHA-256, and none if the first 64 spare bytes are wrong already or no page was read.
pub fn tag_read(outcome: &Outcome) -> Option<Tag>
    ensures { IsTagRead outcome.now result }
{
    match outcome {
        Outcome::Read(page) => sealed_tag(page),
        _ => None,
    }
}
