//! From a table to the bytes of its file.

ghost use Rattle.std.specs.Prelude.{◌≡◌, ◌≤◌, length, IfErr, IfOk, OnOk};
ghost use Rattle.std.specs.Io.KnownBytes.{Appends};
ghost use Rattle.outer_world.specs.Whole.{Writes, text_of};
ghost use Rattle.plane_kernels.specs.Bytes.{word_count};
ghost use Rattle.plane_file.specs.Format.{CanBeSpelled, file, file_size, head_bytes, heads_bytes, plane_size};
ghost use Rattle.plane_file.specs.Writing.{StopsWriting};

use crate::heads::{plane_count, spelled_header, spelled_heads};
use crate::planes::write_planes;
use crate::write_fault::FileWriteFault;
use daq_table::{Head, Table};
use outer_world::{Failed, Sink, write_pieces};
use plane_kernels::Plane;
use std::alloc::Global;

// Writes what stands before the planes, in pieces, and then the planes.
fn write_parts<K: Sink>(
    table: &Table,
    head: &[&[u8]],
    plane: &mut Plane,
    blocks: &mut [[u64; 8]],
    bytes: &mut [u8],
    sink: &mut K,
) -> Result<(), Failed>
    requires head { text_of head.now ≡ head_bytes 2 table.now.head }
    requires rows { length plane.old ≡ table.now.head.rows }
    requires blocks { length blocks.old ≡ word_count table.now.head.rows }
    requires size { length bytes.old ≡ plane_size table.now.head.rows }
    ensures { Writes result (K.state sink.old) (K.state sink.new) (file 2 table.now) }
{
    write_pieces(sink, head)?;
    write_planes(table, plane, blocks, bytes, sink)
}

// The size of the file with these heads and planes as long as this one.
fn size_of_file(head: &Head, heads: &[u8], plane: &[u8]) -> u64
    requires heads { heads.now ≡ heads_bytes head.now.columns }
    requires plane { length plane.now ≡ plane_size head.now.rows }
    ensures { result ≡ file_size head.now }
{
    32 + heads.len() as u64 + plane.len() as u64 * plane_count(head)
}

/// Appends the file of the table, in version 2, and answers how many bytes that is. `Fault` comes only where the sink
/// failed, and then a part of the file was appended, from its front. `NoMemory` comes only before the first byte.
pub fn write<K: Sink>(alloc: Global, table: &Table, sink: &mut K) -> Result<u64, FileWriteFault>
    requires spelled { CanBeSpelled table.now.head }
    ensures size { IfOk result (λ size. size ≡ length (file 2 table.now)) }
    ensures written { OnOk result (Appends (K.state sink.old).written (K.state sink.new).written (file 2 table.now)) }
    ensures stopped { IfErr result (StopsWriting (K.state sink.old) (K.state sink.new) (file 2 table.now)) }
    ensures faults { (K.state sink.old).faults ≤ (K.state sink.new).faults }
{
    let head = table.head();
    let heads = spelled_heads(alloc, head)?;
    let header = spelled_header(alloc, head, heads.len() as u64)?;
    let mut plane = Plane::blank(alloc, head.rows as usize)?;
    let words = (head.rows as usize).div_ceil(64);
    let mut blocks = vec![in alloc; [0; 8]; words]?;
    let mut bytes = vec![in alloc; 0; 8 * words]?;
    let size = size_of_file(head, &heads, &bytes);
    let front = [header.as_slice(), heads.as_slice()];
    match write_parts(table, &front, &mut plane, &mut blocks, &mut bytes, sink) {
        Ok(()) => Ok(size),
        Err(Failed) => Err(FileWriteFault::Fault),
    }
}
