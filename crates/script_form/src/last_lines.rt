ghost use Rattle.std.specs.Prelude.{◌≡◌, ◌++◌, OnOk};
ghost use Rattle.std.specs.List.{flat_map};
ghost use Rattle.std.specs.String.{string_bytes};
ghost use Rattle.script_form.specs.Report.{root_text, wall_line, collision_line, forgery_line, audit_line, status_line};
ghost use Rattle.script_form.specs.Summary.{size_line, sound_line};

use crate::outcome::{AuditLine, WallEnd};
use crate::put::{put, put_hex, put_number};
use fr_bytes::NoMemory;
use std::alloc::Global;

// ---- walls

#[tactic(auto, unfolding(crate::specs::Report::root_text))]
fn put_root(alloc: Global, out: &mut String, wall: &WallEnd) -> Result<(), NoMemory>
    ensures { OnOk result (string_bytes out.new ≡ string_bytes out.old ++ root_text wall.now) }
{
    if wall.size == 0 {
        put(out, "none")
    } else {
        put_hex(alloc, out, &wall.root)
    }
}

#[tactic(auto, unfolding(crate::specs::Report::wall_line))]
fn put_wall(alloc: Global, out: &mut String, wall: &WallEnd) -> Result<(), NoMemory>
    ensures { OnOk result (string_bytes out.new ≡ string_bytes out.old ++ wall_line wall.now) }
{
    put_number(out, "wall ", u64::from(wall.wall))?;
    put_number(out, " size ", wall.size)?;
    put(out, " root ")?;
    put_root(alloc, out, wall)?;
    put(out, "\n")?;
    Ok(())
}

/// A line for each wall, with its size and its root.
pub(crate) fn put_walls(alloc: Global, out: &mut String, walls: &[WallEnd]) -> Result<(), NoMemory>
    ensures { OnOk result (string_bytes out.new ≡ string_bytes out.old ++ flat_map wall_line walls.now) }
{
    for wall in walls {
        put_wall(alloc, out, wall)?;
    }
    Ok(())
}

#[tactic(auto, unfolding(crate::specs::Summary::size_line))]
fn put_size(out: &mut String, wall: &WallEnd) -> Result<(), NoMemory>
    ensures { OnOk result (string_bytes out.new ≡ string_bytes out.old ++ size_line wall.now) }
{
    put_number(out, "wall ", u64::from(wall.wall))?;
    put_number(out, " size ", wall.size)?;
    put(out, "\n")?;
    Ok(())
}

/// A line for each wall, with its size.
pub(crate) fn put_sizes(out: &mut String, walls: &[WallEnd]) -> Result<(), NoMemory>
    ensures { OnOk result (string_bytes out.new ≡ string_bytes out.old ++ flat_map size_line walls.now) }
{
    for wall in walls {
        put_size(out, wall)?;
    }
    Ok(())
}

// ---- what the audit found

#[tactic(auto, unfolding(crate::specs::Report::collision_line))]
fn put_collision(alloc: Global, out: &mut String, a: &[u8], b: &[u8]) -> Result<(), NoMemory>
    ensures { OnOk result (string_bytes out.new ≡ string_bytes out.old ++ collision_line a.now b.now) }
{
    put(out, "collision ")?;
    put_hex(alloc, out, a)?;
    put(out, " ")?;
    put_hex(alloc, out, b)?;
    put(out, "\n")?;
    Ok(())
}

#[tactic(auto, unfolding(crate::specs::Report::forgery_line))]
fn put_forgery(
    alloc: Global,
    out: &mut String,
    user: u32,
    wall: u32,
    op: &[u8],
) -> Result<(), NoMemory>
    ensures { OnOk result (string_bytes out.new ≡ string_bytes out.old ++ forgery_line user wall op.now) }
{
    put_number(out, "forged user ", u64::from(user))?;
    put_number(out, " wall ", u64::from(wall))?;
    put(out, " op ")?;
    put_hex(alloc, out, op)?;
    put(out, "\n")?;
    Ok(())
}

/// What the audit found, with the numbers of records where it found nothing.
#[tactic(auto, unfolding(crate::specs::Report::audit_line))]
pub(crate) fn put_audit(alloc: Global, out: &mut String, audit: &AuditLine) -> Result<(), NoMemory>
    ensures { OnOk result (string_bytes out.new ≡ string_bytes out.old ++ audit_line audit.now) }
{
    match audit {
        AuditLine::Sound { records, grounded } => {
            put_number(out, "sound records ", *records)?;
            put_number(out, " grounded ", *grounded)?;
            put(out, "\n")?;
        }
        AuditLine::Collision { a, b } => put_collision(alloc, out, a.as_slice(), b.as_slice())?,
        AuditLine::Forged { user, wall, op } => {
            put_forgery(alloc, out, *user, *wall, op.as_slice())?;
        }
    }
    Ok(())
}

/// What the audit found, in a word where it found nothing.
#[tactic(auto, unfolding(crate::specs::Summary::sound_line))]
pub(crate) fn put_sound(alloc: Global, out: &mut String, audit: &AuditLine) -> Result<(), NoMemory>
    ensures { OnOk result (string_bytes out.new ≡ string_bytes out.old ++ sound_line audit.now) }
{
    match audit {
        AuditLine::Sound { .. } => put(out, "sound\n"),
        AuditLine::Collision { a, b } => put_collision(alloc, out, a.as_slice(), b.as_slice()),
        AuditLine::Forged { user, wall, op } => {
            put_forgery(alloc, out, *user, *wall, op.as_slice())
        }
    }
}

/// The status.
#[tactic(auto, unfolding(crate::specs::Report::status_line))]
pub(crate) fn put_status(out: &mut String, status: u8) -> Result<(), NoMemory>
    ensures { OnOk result (string_bytes out.new ≡ string_bytes out.old ++ status_line status) }
{
    put_number(out, "status ", u64::from(status))?;
    put(out, "\n")?;
    Ok(())
}
