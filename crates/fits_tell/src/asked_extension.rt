ghost use Rattle.std.specs.Prelude.{◌≡◌, IfOk};
ghost use Rattle.fits_script.specs.Words.{number_of_word};
ghost use Rattle.fits_tell.specs.Asked.{after_comma, before_comma, name_asked};

use fits_script::{number_of_word, split_once};
use std::alloc::{AllocError, Global};

/// An extension that is asked for (FITS Standard 4.0, sections 4.4.1.2 and 4.4.2.6).
#[derive(Drop)]
pub struct AskedExtension {
    /// The text of its EXTNAME.
    pub name: Vec<u8>,
    /// Its version, where that counts.
    pub version: Option<usize>,
}

impl AskedExtension {
    ghost use Rattle.std.specs.Prelude.{◌≡◌, IfOk};
    ghost use Rattle.fits_tell.specs.Asked.{AsksFor};

    /// The extension that `NAME` or `NAME,VER` asks for. What follows the first comma is no version
    /// unless it is a number of 1 to 18 digits.
    pub fn of(alloc: Global, text: &[u8]) -> Result<AskedExtension, AllocError>
        ensures { IfOk result (AsksFor text.now) }
    {
        let (name, version) = name_and_version(text);
        Ok(AskedExtension {
            name: name.to_vec(alloc)?,
            version,
        })
    }
}

// The name, and the version if there is one.
fn name_and_version(text: &[u8]) -> (&[u8], Option<usize>)
    ensures name { result.0.now ≡ name_asked text.now result.1 }
    ensures version { result.1 ≡ number_of_word (after_comma text.now) }
{
    let (name, version) = cut_version(text);
    match number_of_word(version) {
        Some(version) => (name, Some(version)),
        None => (text, None),
    }
}

/// What stands before the first comma, and after it.
#[tactic(auto, using(crate::proofs::AskedLemmas::comma_steps))]
pub fn cut_version(text: &[u8]) -> (&[u8], &[u8])
    ensures name { result.0.now ≡ before_comma text.now }
    ensures version { result.1.now ≡ after_comma text.now }
{
    match split_once(text, b',') {
        Some((name, version)) => (name, version),
        None => (text, b""),
    }
}
