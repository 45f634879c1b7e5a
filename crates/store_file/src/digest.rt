//! Digests of pieces and patterns.

ghost use Rattle.std.specs.Prelude.{◌≡◌};
ghost use Rattle.sha2.specs.Sha256.{sha256};
ghost use Rattle.store_form.specs.Takes.{Gives, Finds};
ghost use Rattle.store_file.specs.StoreText.{digest_cmp, IsDigest};

use sha2::{Digest as HashFunction, Sha256};
use std::cmp::Ordering;
use store_form::{FormFault, Front};

/// The SHA-256 digest of some bytes.
#[derive(Clone, Copy, Debug, PartialEq, Eq)]
pub struct Digest {
    pub bytes: [u8; 32],
}

impl Digest {
    /// The digest of these bytes.
    pub fn of(bytes: &[u8]) -> Digest
        ensures { result.bytes ≡ sha256 bytes.now }
    {
        Digest {
            bytes: Sha256::digest(bytes),
        }
    }

    /// Which of two digests comes first, byte by byte.
    pub fn order(&self, other: &Digest) -> Ordering
        ensures { result ≡ digest_cmp self.now other.now }
    {
        self.bytes.cmp(&other.bytes)
    }

    /// Takes a digest off the front.
    pub fn take(front: &mut Front<'_>) -> Result<Digest, FormFault>
        ensures given { Gives IsDigest (λ d. d.bytes) front.old.rest.now result front.new.rest.now }
        ensures found { Finds IsDigest (λ d. d.bytes) front.old.rest.now result front.new.rest.now }
    {
        if front.rest.len() < 32 {
            return Err(FormFault::NoForm);
        }
        let (first, rest) = front.rest.split_at(32);
        let Ok(bytes) = <[u8; 32]>::try_from(first) else {
            return Err(FormFault::NoForm);
        };
        front.rest = rest;
        Ok(Digest { bytes })
    }
}
