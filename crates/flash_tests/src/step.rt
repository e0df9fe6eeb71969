//! A step of a case: a word and numbers.

use std::alloc::{AllocError, Global};

/// A step: its word, and the numbers after it.
#[derive(Drop)]
pub struct Step<'a> {
    pub word: &'a str,
    numbers: Vec<u64>,
}

impl<'a> Step<'a> {
    /// Reads a step: its first word, and after it the words that are numbers.
    pub fn read(alloc: Global, text: &'a str) -> Result<Step<'a>, AllocError> {
        let mut numbers = Vec::new(alloc);
        let mut words = text.split_whitespace();
        let word = words.next().unwrap_or("");
        for part in words {
            if let Ok(number) = part.parse::<u64>() {
                numbers.push(number)?;
            }
        }
        Ok(Step { word, numbers })
    }

    /// The number in this place; 0 where there is none.
    pub fn number(&self, place: usize) -> u64 {
        self.numbers.get(place).copied().unwrap_or(0)
    }

    /// The number in this place, up to the greatest u32.
    pub fn small(&self, place: usize) -> u32 {
        self.number(place).min(u32::MAX as u64) as u32
    }

    /// The number in this place as a byte, counted round from 256 on.
    pub fn byte(&self, place: usize) -> u8 {
        (self.number(place) % 256) as u8
    }

    /// All numbers.
    pub fn numbers(&self, alloc: Global) -> Result<Vec<u64>, AllocError> {
        Vec::from_slice(alloc, &self.numbers)
    }

    /// The byte in the third place as often as the fourth number says, at most 4,096 times.
    pub fn repeated(&self, alloc: Global) -> Result<Vec<u8>, AllocError> {
        vec![in alloc; self.byte(2); self.small(3).min(4096) as usize]
    }

    /// The numbers from this place on as bytes.
    pub fn bytes(&self, alloc: Global, from: usize) -> Result<Vec<u8>, AllocError> {
        let mut bytes = Vec::new(alloc);
        for place in from..self.numbers.len() {
            bytes.push(self.byte(place))?;
        }
        Ok(bytes)
    }
}
