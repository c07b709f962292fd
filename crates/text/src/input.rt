// Standard input, byte by byte.

use std::io;
use std::io::Read;

// How many bytes of input are read at once at most.
const BLOCK: usize = 65536;

// How many blocks of input are read at most, since every loop must end: far more than there is.
const BLOCKS: u64 = 18446744073709551615;

// Hands the bytes of standard input over one by one, to its end or to the first error.
pub fn each_byte<F: FnMut(u8) -> io::Result<()>>(rt: &impl Input, mut take: F) -> io::Result<()>
    requires { F.IsAlwaysCallable take }
{
    let mut input = rt.reader();
    let mut buffer = [0u8; BLOCK];
    for _ in 0..BLOCKS {
        let n = input.read(&mut buffer)?;
        if n == 0 {
            break;
        }
        for byte in &buffer[..n] {
            take(*byte)?;
        }
    }
    Ok(())
}
