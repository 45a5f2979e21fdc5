ghost use Rattle.std.specs.Prelude.{◌≡◌, ◌+◌, ◌<◌, ◌≤◌, ◌^◌, [], Err, length, IfOk, OnOk};
ghost use Rattle.mv_base.specs.Outside.{Rose};
ghost use Rattle.mv_files.specs.FileReading.{BeganNone, BeganOne, Read, Stay, Lacks};
ghost use Rattle.mv_files.specs.Pieces.{GotPiece, ReadOn, Unsound};

use mv_base::Files;
use std::alloc::Global;

/// How many bytes are asked for at once.
pub const PIECE: usize = 4_096;

/// Why a file couldn't be read.
#[derive(Clone, Copy, Debug, PartialEq, Eq)]
pub enum ReadStop {
    /// A call of the files failed.
    Failed,
    /// Want of memory, which says nothing of the file.
    Memory,
}

/// Puts the next bytes of the file behind those read, and answers whether there were any.
fn read_piece<F: Files>(
    files: &mut F,
    room: &mut [u8],
    bytes: &mut Vec<u8>,
) -> Result<bool, ReadStop>
    requires { 0 < length room.old }
    ensures got { IfOk result
        (λ more. GotPiece (F.state files.old).held
        (F.state files.new).held bytes.old.items bytes.new.items (length room.old) more) }
    ensures stay { Stay (F.state files.old) (F.state files.new) }
    ensures failed { result ≡ Err ReadStop.Failed
        → Rose (F.state files.old).faults (F.state files.new).faults }
    ensures unsound { result ≡ Err ReadStop.Failed → Unsound (F.state files.old).held }
    ensures starts { BeganNone (F.state files.old) (F.state files.new) }
{
    let count = match files.next(room) {
        Ok(count) => count,
        Err(_failed) => return Err(ReadStop::Failed),
    };
    match bytes.extend_from_slice(&room[..count]) {
        Ok(()) => Ok(0 < count),
        Err(_error) => Err(ReadStop::Memory),
    }
}

/// Reads the current file to its end, or to the first byte past the limit.
fn read_on<F: Files>(files: &mut F, bytes: &mut Vec<u8>, limit: u64) -> Result<(), ReadStop>
    requires small { limit < 2 ^ 32 }
    requires empty { bytes.old.items ≡ [] }
    ensures ok { OnOk result
        (ReadOn (F.state files.old).held (F.state files.new).held limit bytes.new.items) }
    ensures stay { Stay (F.state files.old) (F.state files.new) }
    ensures failed { result ≡ Err ReadStop.Failed
        → Rose (F.state files.old).faults (F.state files.new).faults }
    ensures unsound { result ≡ Err ReadStop.Failed → Unsound (F.state files.old).held }
    ensures starts { BeganNone (F.state files.old) (F.state files.new) }
{
    let mut room = [0u8; PIECE];
    for _turn in 0..limit + 1 {
        let left = limit as usize + 1 - bytes.len();
        if left == 0 {
            return Ok(());
        }
        match read_piece(files, &mut room[..left.min(PIECE)], bytes) {
            Ok(true) => {}
            Ok(false) => return Ok(()),
            Err(stop) => return Err(stop),
        }
    }
    Ok(())
}

/// The bytes of the named file: all of them, or those up to the first one past the limit. It is begun once, and no other is.
pub fn read_file<F: Files>(
    alloc: Global,
    files: &mut F,
    name: &str,
    limit: u64,
) -> Result<Vec<u8>, ReadStop>
    requires { limit < 2 ^ 32 }
    ensures read { IfOk result
        (λ bytes. Read (F.state files.old) (F.state files.new) name.now limit bytes.items) }
    ensures stay { Stay (F.state files.old) (F.state files.new) }
    ensures failed { result ≡ Err ReadStop.Failed
        → Rose (F.state files.old).faults (F.state files.new).faults }
    ensures lacks { result ≡ Err ReadStop.Failed → Lacks (F.state files.old) name.now }
    ensures starts { BeganOne (F.state files.old) (F.state files.new) }
{
    match files.start(name) {
        Ok(()) => {}
        Err(_failed) => return Err(ReadStop::Failed),
    }
    let mut bytes = Vec::new(alloc);
    match read_on(files, &mut bytes, limit) {
        Ok(()) => Ok(bytes),
        Err(stop) => Err(stop),
    }
}
