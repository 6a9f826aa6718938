use crate::ends::{end_of, keys_of};
use fr_bytes::{Bytes, Sequence};
use script_form::{
    AuditLine, Outcome, OutcomeList, Outcomes, Shown, ShownKind, ShownList, WallEnd, WallEnds,
};
use serde_json::Value;
use std::alloc::Global;
use vector_cases::{
    CaseFault, byte_at, bytes_at, dig_at, field, list_at, number_at, small_at, word_at,
};

/// What a run came to, as the case tells it.
pub fn run_at(alloc: Global, case: &Value) -> Result<Outcomes, CaseFault> {
    Ok(Outcomes {
        commands: outcomes_of(alloc, list_at(case, "commands")?)?,
        walls: walls_of(alloc, list_at(case, "walls")?)?,
        audit: audit_of(alloc, field(case, "audit")?)?,
    })
}

// ---- commands

fn outcomes_of(alloc: Global, list: &[Value]) -> Result<OutcomeList, CaseFault> {
    let mut outcomes = Vec::new(alloc);
    for command in list {
        outcomes.push(outcome_of(alloc, command)?)?;
    }
    Ok(Sequence::of(outcomes))
}

fn outcome_of(alloc: Global, case: &Value) -> Result<Outcome, CaseFault> {
    let (phase, session, command) = place_of(case)?;
    let end = end_of(case)?;
    let keys = keys_of(case)?;
    let shown = shown_of(alloc, list_at(case, "shown")?)?;
    Ok(Outcome {
        phase,
        session,
        command,
        end,
        shown,
        keys,
    })
}

fn place_of(case: &Value) -> Result<(u32, u32, u32), CaseFault> {
    let phase = small_at(case, "phase")?;
    let session = small_at(case, "session")?;
    Ok((phase, session, small_at(case, "command")?))
}

// ---- positions

fn shown_of(alloc: Global, list: &[Value]) -> Result<ShownList, CaseFault> {
    let mut shown = Vec::new(alloc);
    for line in list {
        shown.push(Shown {
            position: number_at(line, "position")?,
            author: small_at(line, "author")?,
            what: kind_of(alloc, line)?,
        })?;
    }
    Ok(Sequence::of(shown))
}

fn kind_of(alloc: Global, case: &Value) -> Result<ShownKind, CaseFault> {
    match word_at(case, "kind")? {
        "post" => Ok(ShownKind::Post {
            body: Bytes::of(bytes_at(alloc, case, "body")?),
        }),
        "unreadable" => Ok(ShownKind::Unreadable),
        "admit" => admit_of(case),
        "remove" => Ok(ShownKind::Remove {
            user: small_at(case, "user")?,
        }),
        _ => Err(CaseFault::NoValue("a kind of operation")),
    }
}

fn admit_of(case: &Value) -> Result<ShownKind, CaseFault> {
    Ok(ShownKind::Admit {
        user: small_at(case, "user")?,
        role: byte_at(case, "role")?,
    })
}

// ---- walls and the audit

fn walls_of(alloc: Global, list: &[Value]) -> Result<WallEnds, CaseFault> {
    let mut walls = Vec::new(alloc);
    for wall in list {
        walls.push(WallEnd {
            wall: small_at(wall, "wall")?,
            size: number_at(wall, "size")?,
            root: dig_at(wall, "root")?,
        })?;
    }
    Ok(Sequence::of(walls))
}

fn audit_of(alloc: Global, case: &Value) -> Result<AuditLine, CaseFault> {
    if case.get("collision").is_some() {
        return collision_of(alloc, field(case, "collision")?);
    }
    if case.get("forged").is_some() {
        return forgery_of(alloc, field(case, "forged")?);
    }
    Ok(AuditLine::Sound {
        records: number_at(case, "records")?,
        grounded: number_at(case, "grounded")?,
    })
}

fn collision_of(alloc: Global, case: &Value) -> Result<AuditLine, CaseFault> {
    Ok(AuditLine::Collision {
        a: Bytes::of(bytes_at(alloc, case, "a")?),
        b: Bytes::of(bytes_at(alloc, case, "b")?),
    })
}

fn forgery_of(alloc: Global, case: &Value) -> Result<AuditLine, CaseFault> {
    Ok(AuditLine::Forged {
        user: small_at(case, "user")?,
        wall: small_at(case, "wall")?,
        op: Bytes::of(bytes_at(alloc, case, "op")?),
    })
}
