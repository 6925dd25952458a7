//! Numbers that are worth a try in place of those that are told.

use std::alloc::{AllocError, Global};

/// How many numbers there are at most.
const MOST: usize = 64;

/// Small numbers that are added to those that are given.
const SMALL: [i128; 6] = [4, 5, 6, 7, 8, 9];

/// Divisors are looked for below this number.
const DIVISORS_END: u8 = 64;

/// How many values of a point are looked at.
const VALUES: usize = 1024;

/// Adds the number, where it is not among them and there is room.
fn add(numbers: &mut Vec<i128>, number: i128) -> Result<(), AllocError> {
    if numbers.len() < MOST && !numbers.contains(&number) {
        numbers.push(number)?;
    }
    Ok(())
}

/// Adds two numbers, none of them 1, with the product `number`, each such pair with a small one. So a product of two values that is told as a whole can
/// come of its factors.
fn add_factors(numbers: &mut Vec<i128>, number: i128) -> Result<(), AllocError> {
    for small in 2..DIVISORS_END {
        let small = i128::from(small);
        if small * small > number {
            return Ok(());
        }
        if number % small == 0 {
            add(numbers, small)?;
            add(numbers, number / small)?;
        }
    }
    Ok(())
}

/// The candidates, small numbers, and the factors of the candidates and of the values of the point, among which is what the point has for each product.
pub(crate) fn suggested(
    alloc: Global,
    candidates: &[i128],
    point: &[i128],
) -> Result<Vec<i128>, AllocError> {
    let mut numbers = Vec::new(alloc);
    for number in candidates {
        add(&mut numbers, *number)?;
    }
    for number in SMALL {
        add(&mut numbers, number)?;
    }
    for number in candidates {
        add_factors(&mut numbers, *number)?;
    }
    for value in point.iter().take(VALUES) {
        add_factors(&mut numbers, *value)?;
    }
    Ok(numbers)
}
