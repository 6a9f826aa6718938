//! What a command has a client ask.
ghost use Rattle.client_core.specs.Clients.{Asks, Declines, client_view};
ghost use Rattle.client_core.specs.Sides.{HasSide, SideView, side_of, sides_view};
ghost use Rattle.msg_form.specs.declared.decline.Decline.TheVariants as declines;
ghost use Rattle.msg_form.specs.declared.message.Request.TheVariants as requests;
ghost use Rattle.msg_form.specs.Messages.{IsRequest};
ghost use Rattle.session_laws.specs.Doing.{asked_by, wall_of};
ghost use Rattle.session_laws.specs.Readiness.{CanDo, IsAskable};
ghost use Rattle.session_run.specs.Parts.{Sends};
ghost use Rattle.session_run.specs.Views.{client_of};
ghost use Rattle.client_core.specs.Asking as asking;
ghost use Rattle.std.specs.Prelude.{◌≡◌, ◌≢◌, ◌∷◌, [], IfErr, IfOk, OnErr, Some};

use client_core::{Client, Sent};
use fr_bytes::NoMemory;
use fr_digest::Digester;
use msg_form::Decline;
use script_form::Command;
use std::alloc::Global;

// A look, or that there was no memory for it.
fn look<D: Digester>(
    alloc: Global,
    client: &Client<D>,
    wall: u32,
    whole: bool,
) -> Result<Sent, Decline>
    requires { HasSide wall (sides_view client.now.sides) }
    ensures asks { IfOk result (λ sent. Asks (client_view client.now) wall (asking.look whole) sent (client_view client.now)) }
    ensures spelled { IfOk result (λ sent. (s : SideView) → side_of wall (sides_view client.now.sides) ≡ Some s
        → IsRequest (requests.Look s.known.wall s.known.size whole)) }
    ensures wanting { IfErr result (λ d. d ≡ declines.NoMemory) }
{
    match client.look_request(alloc, wall, whole) {
        Ok(sent) => Ok(sent),
        Err(NoMemory) => Err(Decline::NoMemory),
    }
}

/// What the client sends for a command, or why it asks nothing.
pub(crate) fn ask<D: Digester>(
    alloc: Global,
    client: &mut Client<D>,
    command: &Command,
) -> Result<Sent, Decline>
    requires can { CanDo (client_of client.old) (command.now ∷ []) }
    requires askable { IsAskable command.now }
    ensures asks { IfOk result (λ sent. Asks (client_view client.old) (wall_of command.now) (asked_by command.now) sent
        (client_view client.new)) }
    ensures spelled { IfOk result (λ sent. (s : SideView)
        → side_of (wall_of command.now) (sides_view client.old.sides) ≡ Some s → Sends s command.now sent) }
    ensures declines { IfErr result (λ d. d ≢ declines.NoMemory
        → Declines (client_view client.old) (wall_of command.now) (asked_by command.now) d) }
    ensures unchanged { OnErr result (client_view client.new ≡ client_view client.old) }
{
    match command {
        Command::Post { wall, text } => client.post_request(alloc, *wall, text.as_slice()),
        Command::Read { wall } => look(alloc, client, *wall, false),
        Command::ReadAll { wall } => look(alloc, client, *wall, true),
        Command::Admit { wall, user, role } => client.admit_request(alloc, *wall, *user, *role),
        Command::Remove { wall, user } => client.remove_request(alloc, *wall, *user),
    }
}
