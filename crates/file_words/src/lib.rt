// The answer words of the calls that read a file.

#![tactic(auto)]

ghost use Rattle.file_words.specs.Words.{block_value};

use answer::types::Lbn;
use answer::words::Value;

// The block of an LBN, where the LBN itself is not what is told.
#[derive(Clone, Copy)]
pub struct Block(pub Lbn);

// Where it begins in the image, and how many bytes it has.
impl Value for Block {
    ghost words = { λ b. block_value b.0 };

    fn words(self) -> [u64; 10] {
        [512 * u64::from(self.0.0), 512, 0, 0, 0, 0, 0, 0, 0, 0]
    }
}
