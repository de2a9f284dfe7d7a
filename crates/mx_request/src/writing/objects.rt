//! The fields of an object's map.

ghost use Rattle.std.specs.Prelude.{◌≡◌, ◌++◌, ◌∷◌, map, OnOk, OnErr};
ghost use Rattle.mx_request.specs.Growth.{IsGrown, blank_before};
ghost use Rattle.mx_request.specs.ObjectTexts.{definition_text, link_text, object_fields};

use super::fields::push_number;
use mx_name::EntryName;
use mx_object::ObjectMap;
use mx_sdw::write_octal;
use std::alloc::AllocError;

/// The number of gates, the definitions and the links, with a blank before each.
pub(super) fn push_map(out: &mut Vec<u8>, object: &ObjectMap) -> Result<(), AllocError>
    ensures ok { OnOk result (out.new.items ≡ out.old.items ++ blank_before (object_fields object.now)) }
    ensures err { OnErr result (IsGrown out.old.items out.new.items) }
{
    push_number(out, u64::from(object.gate()))?;
    push_definitions(out, object.definitions())?;
    push_links(out, object.links())
}

fn push_definitions(out: &mut Vec<u8>, definitions: &[(EntryName, u16)]) -> Result<(), AllocError>
    ensures ok { OnOk result (out.new.items ≡ out.old.items ++ blank_before (map definition_text definitions.now)) }
    ensures err { OnErr result (IsGrown out.old.items out.new.items) }
{
    for (symbol, word) in definitions {
        push_definition(out, symbol, *word)?;
    }
    Ok(())
}

fn push_links(out: &mut Vec<u8>, links: &[(EntryName, EntryName)]) -> Result<(), AllocError>
    ensures ok { OnOk result (out.new.items ≡ out.old.items ++ blank_before (map link_text links.now)) }
    ensures err { OnErr result (IsGrown out.old.items out.new.items) }
{
    for (name, symbol) in links {
        push_link(out, name, symbol)?;
    }
    Ok(())
}

fn push_definition(out: &mut Vec<u8>, symbol: &EntryName, word: u16) -> Result<(), AllocError>
    ensures ok { OnOk result (out.new.items ≡ out.old.items ++ 32 ∷ definition_text (symbol.now, word)) }
    ensures err { OnErr result (IsGrown out.old.items out.new.items) }
{
    out.extend_from_slice(b" d:")?;
    out.extend_from_slice(symbol.bytes())?;
    out.extend_from_slice(b":")?;
    write_octal(out, u64::from(word))
}

fn push_link(out: &mut Vec<u8>, name: &EntryName, symbol: &EntryName) -> Result<(), AllocError>
    ensures ok { OnOk result (out.new.items ≡ out.old.items ++ 32 ∷ link_text (name.now, symbol.now)) }
    ensures err { OnErr result (IsGrown out.old.items out.new.items) }
{
    out.extend_from_slice(b" l:")?;
    out.extend_from_slice(name.bytes())?;
    out.extend_from_slice(b"$")?;
    out.extend_from_slice(symbol.bytes())
}
