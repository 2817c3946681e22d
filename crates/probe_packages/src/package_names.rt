use crate::versions::order_word;
use byte_class::is_name;
use eapi_tables::is_eclass_name;
use eb_bytes::{Bytes, Memory};
use ebuild_names::{EbuildPath, NameErr, Names, is_category, is_flag, is_package, read_path};
use probe_base::{Answer, Fault};
use std::alloc::Global;

fn path_of(alloc: Global, parts: [&Bytes; 3]) -> Result<EbuildPath, Memory> {
    let [category, package, file] = parts;
    Ok(EbuildPath {
        category: category.copy(alloc)?,
        package: package.copy(alloc)?,
        file: file.copy(alloc)?,
    })
}

/// `names CAT PN FILE`: the seven texts of the path, CATEGORY, PN, PV, PR, P, PVR and PF, or `bad` and the first part
/// that does not hold.
pub fn names(parts: [&Bytes; 3], answer: &mut Answer) -> Result<(), Fault> {
    let path = path_of(answer.alloc(), parts)?;
    match read_path(answer.alloc(), &path) {
        Ok(names) => put_names(&names, answer),
        Err(NameErr::Bad(kind)) => {
            answer.word("bad ");
            answer.push_name(kind.name());
        }
        Err(NameErr::Memory) => answer.fail(Fault::Memory),
    }
    Ok(())
}

fn put_names(names: &Names, answer: &mut Answer) {
    answer.text(names.category.as_slice());
    answer.text(names.pn.as_slice());
    answer.text(names.pv.as_slice());
    answer.text(names.pr.as_slice());
    answer.text(names.p.as_slice());
    answer.text(names.pvr.as_slice());
    answer.text(names.pf.as_slice());
}

/// `paths CAT PN FILE CAT PN FILE`: `less`, `equal` or `greater`, as the first path stands to the second.
pub fn paths(first: [&Bytes; 3], second: [&Bytes; 3], answer: &mut Answer) -> Result<(), Fault> {
    let first = path_of(answer.alloc(), first)?;
    let second = path_of(answer.alloc(), second)?;
    answer.word(order_word(first.cmp(&second)));
    Ok(())
}

/// `name TEXT`, `eclass TEXT`, `category TEXT`, `package TEXT` and `flag TEXT`: whether the text has the form of the
/// name of a shell variable, an eclass, a category or a package, or of a USE flag.
pub fn form(request: &[u8], text: &[u8], answer: &mut Answer) -> Result<(), Fault> {
    let has_form = match request {
        b"name" => is_name(text),
        b"eclass" => is_eclass_name(text),
        b"category" => is_category(text),
        b"package" => is_package(text),
        b"flag" => is_flag(text),
        _ => return Err(Fault::NoRequest),
    };
    answer.yes_or_no(has_form);
    Ok(())
}
