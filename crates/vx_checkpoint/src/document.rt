ghost use Rattle.std.specs.Prelude.{◌≡◌, ◌++◌, ◌∷◌, [], string_bytes, ◌<◌, ◌^◌, Some, None, IfOk, IfErr, MatchOption};
ghost use Rattle.serde_json.specs.Read.{read as value_of};
ghost use Rattle.serde_json.specs.View.{view};
ghost use Rattle.serde_json.specs.Written.{compact_text};
ghost use Rattle.vx_checkpoint.specs.Document.{Reading, Mark, OtherVersion, Misshapen, reading, version_of, path_of, offset_of, member_count, first_version, document_of};
ghost use Rattle.vx_checkpoint.specs.Readings.{Says, IsFault};
ghost use Rattle.vx_checkpoint.specs.Shapes.{IsShapeFault, IsFirstShapeFault};

use crate::checkpoint::{Checkpoint, CheckpointFault};
use serde_json::{Value, json};
use std::alloc::{AllocError, Global};
use vx_value::{Bytes, Text, WantOfMemory};

/// The checkpoint of a document's bytes.
///
/// The faults are tried in the order of `CheckpointFault`. Of equal keys the last counts, and blanks stand around and
/// between the tokens as JSON allows.
pub fn read(alloc: Global, bytes: &[u8]) -> Result<Checkpoint, CheckpointFault>
    ensures says { IfOk result
        (λ checkpoint. Says bytes.now (Mark checkpoint.path checkpoint.offset)) }
    ensures refused { IfErr result (IsFault bytes.now) }
{
    match Value::from_slice(alloc, bytes) {
        Ok(value) => checkpoint_of(alloc, &value),
        Err(error) => {
            if error.is_memory() {
                Err(CheckpointFault::WantOfMemory)
            } else {
                Err(CheckpointFault::NotJson)
            }
        }
    }
}

/// The checkpoint of a document.
#[tactic(auto, unfolding(crate::specs::Document::reading))]
fn checkpoint_of(alloc: Global, value: &Value) -> Result<Checkpoint, CheckpointFault>
    ensures says { IfOk result
        (λ checkpoint. reading (view value.now) ≡ Mark checkpoint.path checkpoint.offset) }
    ensures refused { IfErr result (IsShapeFault (view value.now)) }
{
    match version_of(value) {
        None => Err(CheckpointFault::WrongShape),
        Some(1) => first_version(alloc, value),
        Some(found) => Err(CheckpointFault::WrongVersion { found }),
    }
}

/// The version of a document, where it is a whole number.
#[tactic(auto, unfolding(crate::specs::Document::version_of))]
fn version_of(value: &Value) -> Option<i64>
    ensures { result ≡ version_of (view value.now) }
{
    value.get("version").and_then(Value::as_i64)
}

/// The offset of a document, where it is a whole number that isn't negative.
#[tactic(auto, unfolding(crate::specs::Document::offset_of))]
fn offset_of(value: &Value) -> Option<u64>
    ensures { result ≡ offset_of (view value.now) }
{
    value.get("offset").and_then(Value::as_u64)
}

/// How many members a document has.
fn member_count(value: &Value) -> usize
    ensures { result ≡ member_count (view value.now) }
{
    match value.as_object() {
        Some(map) => map.len(),
        None => 0,
    }
}

/// The checkpoint of a document of version 1.
fn first_version(alloc: Global, value: &Value) -> Result<Checkpoint, CheckpointFault>
    ensures says { IfOk result
        (λ checkpoint. first_version (view value.now) ≡ Mark checkpoint.path checkpoint.offset) }
    ensures refused { IfErr result (IsFirstShapeFault (view value.now)) }
{
    if member_count(value) != 3 {
        return Err(CheckpointFault::WrongShape);
    }
    let Some(path) = path_of(value) else {
        return Err(CheckpointFault::WrongShape);
    };
    match offset_of(value) {
        Some(offset) if offset < 1 << 63 => {
            let path = Text::copy_of(alloc, path)?;
            Ok(Checkpoint { path, offset })
        }
        _ => Err(CheckpointFault::WrongShape),
    }
}

/// The path of a document, where it is a text.
#[tactic(auto, unfolding(crate::specs::Document::path_of))]
fn path_of(value: &Value) -> Option<&str>
    ensures { MatchOption result (path_of (view value.now) ≡ None)
        (λ path. path_of (view value.now) ≡ Some path.now) }
{
    value.get("path").and_then(Value::as_str)
}

/// The document of a path and an offset.
#[tactic(auto, unfolding(crate::specs::Document::document_of))]
fn document_of(alloc: Global, path: &str, offset: u64) -> Result<Value, AllocError>
    ensures { IfOk result (λ value. view value ≡ document_of path.now offset) }
{
    json!(in alloc; {"offset": offset, "path": path, "version": 1u64})
}

/// The text of a document, in its compact form.
fn text_of(alloc: Global, path: &str, offset: u64) -> Result<String, AllocError>
    ensures compact { IfOk result
        (λ text. string_bytes text ≡ compact_text (document_of path.now offset)) }
    ensures read { IfOk result
        (λ text. value_of (string_bytes text) ≡ Some (document_of path.now offset)) }
{
    let value = document_of(alloc, path, offset)?;
    value.to_string(alloc)
}

/// The document of a checkpoint, with a line feed at its end. `read` of it gives the same checkpoint, and no other.
pub fn write(alloc: Global, checkpoint: &Checkpoint) -> Result<Bytes, WantOfMemory>
    requires { checkpoint.now.offset < 2 ^ 63 }
    ensures text { IfOk result
        (λ bytes. bytes ≡ compact_text (document_of checkpoint.now.path checkpoint.now.offset) ++ 10
        ∷ []) }
    ensures reads_back { IfOk result
        (λ bytes. Says bytes (Mark checkpoint.now.path checkpoint.now.offset)) }
    ensures alone { IfOk result
        (λ bytes. (other : Reading) → Says bytes other →
        other ≡ Mark checkpoint.now.path checkpoint.now.offset) }
{
    let text = text_of(alloc, checkpoint.path.as_str(), checkpoint.offset)?;
    let mut bytes = Bytes::copy_of(alloc, text.as_bytes())?;
    bytes.push_slice(b"\n")?;
    Ok(bytes)
}
