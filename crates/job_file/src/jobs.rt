//! What a job file asks for.

ghost use Rattle.std.specs.Prelude.{◌≡◌, ◌≤◌, length};
ghost use Rattle.job_file.specs.JobFile.{JobFile, IsJobFile};

use crate::job::Job;
use cmm_caching::CacheLimits;
use esdk_fields::Text;
use std::marker::Model;

/// The jobs of a job file, with what the file says of them together. A contract sees a `JobFile`.
#[derive(Drop)]
pub struct Jobs {
    keyring: Text,
    width: u32,
    piece: u32,
    cache: Option<CacheLimits>,
    jobs: Vec<Job>,
}

impl Model for Jobs {
    ghost use Rattle.job_file.specs.JobFile.{JobFile, IsJobFile};

    ghost Value = { JobFile };

    ghost view = { λ f. record {
      keyring = f.keyring;
      width = f.width;
      piece = f.piece;
      cache =
          f.cache;
      jobs = f.jobs.items;
    } };

    ghost invariant = { λ f. IsJobFile (record {
      keyring = f.keyring;
      width = f.width;
      piece =
          f.piece;
      cache = f.cache;
      jobs = f.jobs.items;
    }) };
}

impl Jobs {
    /// The jobs of a file that says this of them.
    pub(crate) fn new(
        keyring: Text,
        width: u32,
        piece: u32,
        cache: Option<CacheLimits>,
        jobs: Vec<Job>,
    ) -> Jobs
        requires { IsJobFile (record {
          keyring = keyring;
          width = width;
          piece = piece;
          cache =
              cache;
          jobs = jobs.items;
        }) }
        ensures { result ≡ record {
          keyring = keyring;
          width = width;
          piece = piece;
          cache = cache;
          jobs = jobs.items;
        } }
    {
        Jobs {
            keyring,
            width,
            piece,
            cache,
            jobs,
        }
    }

    /// The name of the keyring file.
    pub fn keyring(&self) -> &str
        ensures { result.now ≡ self.now.keyring }
    {
        self.keyring.as_str()
    }

    /// How many jobs have their turns in one round: 1 to 64.
    pub fn width(&self) -> u32
        ensures width { result ≡ self.now.width }
        ensures file { IsJobFile self.now }
    {
        self.width
    }

    /// How many bytes of its file a job reads in one turn: 1 to 65,536.
    pub fn piece(&self) -> u32
        ensures piece { result ≡ self.now.piece }
        ensures file { IsJobFile self.now }
    {
        self.piece
    }

    /// The limits of the cache. None where it is off.
    pub fn cache(&self) -> Option<CacheLimits>
        ensures { result ≡ self.now.cache }
    {
        self.cache
    }

    /// How many jobs there are: 1 to 1,000.
    pub fn count(&self) -> u32
        ensures count { result ≡ length self.now.jobs }
        ensures file { IsJobFile self.now }
    {
        self.jobs.len() as u32
    }

    /// The jobs, in their order.
    pub fn jobs(&self) -> &[Job]
        ensures jobs { result.now ≡ self.now.jobs }
        ensures file { IsJobFile self.now }
    {
        self.jobs.as_slice()
    }
}
