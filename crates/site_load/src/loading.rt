//! The loading of a site.

ghost use Rattle.std.specs.Prelude.{◌≡◌, ℕ, List, None, IfOk, IfErr, OnOk, IfSome};
ghost use Rattle.conf.specs.Reading.{IsWhole};
ghost use Rattle.site_check.specs.Sites.{IsRead};
ghost use Rattle.site_load.specs.Handlers.{unbuilt_line};
ghost use Rattle.site_load.specs.Loading as spec;
ghost use Rattle.site_load.specs.Loading.{HasBlocks, HasSite, NotLoaded, Says, IsRefusedAs, IsUnread, most_bytes};
ghost use Rattle.lua_modules.specs.TextsOfFiles.{Holds, ReadsWell};
ghost use Rattle.site_load.specs.Views.{site_of};
ghost use Rattle.site_load.specs.declared.faults.SiteFault.TheVariants.{Memory};

use crate::SiteFault;
use crate::chunks::set_of;
use crate::handlers::unbuilt_line;
use crate::machine::SiteMachine;
use crate::starting::start_site;
use conf::Conf;
use lua_modules::{ModuleFault, ModuleFileFault, ModuleSet, read_modules};
use lua_run::Site;
use resty_base::{Bytes, Fetched, Files};
use site_check::{CheckFault, SiteRead, read_site};
use std::alloc::Global;

/// How many bytes a configuration may have.
const MOST_BYTES: usize = 1_048_576;

/// Reads the file of a configuration whole.
fn read_file<F: Files>(
    alloc: Global,
    files: &mut F,
    name: &str,
    file: &Bytes,
) -> Result<Bytes, SiteFault>
    requires { file.now ≡ name.now }
    ensures ok { IfOk result (λ text. IfSome (F.account files.old).told (λ held. Holds held name.now most_bytes text)) }
    ensures err { IfErr result (IsUnread name.now (F.account files.old) (F.account files.new)) }
    ensures well { OnOk result (ReadsWell (F.account files.old) (F.account files.new)) }
{
    match files.fetch(alloc, name, MOST_BYTES) {
        Fetched::Text(text) => Ok(text),
        Fetched::Missing => Err(SiteFault::Missing(file.clone()?)),
        Fetched::TooLong => Err(SiteFault::TooLong(file.clone()?)),
        Fetched::Failed => Err(SiteFault::Unreadable(file.clone()?)),
        Fetched::Memory => Err(SiteFault::Memory),
    }
}

/// A configuration, and the set of its chunks.
#[derive(Drop)]
struct SiteTexts {
    conf: Conf,
    set: ModuleSet,
}

/// What the fault of the text of a file is as one of a site.
fn refusal(file: Bytes, fault: CheckFault) -> SiteFault
    ensures { result ≡ spec.refusal file fault }
{
    match fault {
        CheckFault::Memory => SiteFault::Memory,
        fault => SiteFault::Refused(file, fault),
    }
}

/// Reads the text of a configuration, of which `file` is the name.
fn read_texts(alloc: Global, file: Bytes, text: &[u8]) -> Result<SiteTexts, SiteFault>
    ensures ok { IfOk result (λ texts. Says file text.now texts.conf texts.set) }
    ensures whole { IfOk result (λ texts. IsWhole texts.conf) }
    ensures err { IfErr result (IsRefusedAs file text.now) }
{
    match read_site(alloc, text) {
        Ok(read) => texts_of(alloc, file, read),
        Err(fault) => Err(refusal(file, fault)),
    }
}

/// The texts of a site that is read, of which `file` is the name, if each of its blocks is run.
fn texts_of(alloc: Global, file: Bytes, read: SiteRead) -> Result<SiteTexts, SiteFault>
    requires { IsWhole read.conf }
    ensures ok { (text : List ℕ) → IsRead text read.conf read.programs.items → IfOk result (λ texts. Says file text texts.conf texts.set) }
    ensures whole { IfOk result (λ texts. IsWhole texts.conf) }
    ensures err { (text : List ℕ) → IsRead text read.conf read.programs.items → IfErr result (IsRefusedAs file text) }
{
    match unbuilt_line(alloc, &read.conf) {
        Ok(None) => with_chunks(alloc, file, read),
        Ok(Some(line)) => {
            drop(read);
            Err(SiteFault::NotBuilt(file, line))
        }
        Err(_) => {
            drop(read);
            Err(SiteFault::Memory)
        }
    }
}

/// The texts of a site that is read, of which `file` is the name.
fn with_chunks(alloc: Global, file: Bytes, read: SiteRead) -> Result<SiteTexts, SiteFault>
    requires whole { IsWhole read.conf }
    requires built { unbuilt_line read.conf ≡ None }
    ensures ok { (text : List ℕ) → IsRead text read.conf read.programs.items → IfOk result (λ texts. Says file text texts.conf texts.set) }
    ensures whole { IfOk result (λ texts. IsWhole texts.conf) }
    ensures err { (text : List ℕ) → IsRead text read.conf read.programs.items → IfErr result (IsRefusedAs file text) }
{
    let SiteRead { conf, programs } = read;
    match set_of(alloc, &file, programs) {
        Ok(set) => Ok(SiteTexts { conf, set }),
        Err(fault) => {
            drop(conf);
            Err(fault)
        }
    }
}

/// The name of a file as bytes.
fn name_of(alloc: Global, name: &str) -> Result<Bytes, SiteFault>
    ensures ok { IfOk result (λ file. file ≡ name.now) }
    ensures err { IfErr result (λ fault. fault ≡ Memory) }
{
    Ok(Bytes::from_vec(Vec::from_slice(alloc, name.as_bytes())?)?)
}

/// Reads the configuration in the file of this name, and the grammar of its blocks of Lua.
fn read_conf<F: Files>(alloc: Global, files: &mut F, name: &str) -> Result<SiteTexts, SiteFault>
    ensures ok { IfOk result (λ texts. IfSome (F.account files.old).told (λ held. HasBlocks held name.now texts.conf texts.set)) }
    ensures whole { IfOk result (λ texts. IsWhole texts.conf) }
    ensures err { IfErr result (NotLoaded name.now (F.account files.old) (F.account files.new)) }
    ensures well { OnOk result (ReadsWell (F.account files.old) (F.account files.new)) }
{
    let file = name_of(alloc, name)?;
    let text = read_file(alloc, files, name, &file)?;
    let texts = read_texts(alloc, file, text.as_slice());
    drop(text);
    texts
}

/// What the fault of a chunk is as one of a text of a site.
fn of_chunk(fault: ModuleFault) -> CheckFault
    ensures { result ≡ spec.of_chunk fault }
{
    match fault {
        ModuleFault::Lex(fault) => CheckFault::Lex(fault),
        ModuleFault::Parse(fault) => CheckFault::Parse(fault),
        ModuleFault::Memory => CheckFault::Memory,
    }
}

/// What a fault of modules is as one of a site.
fn of_modules(fault: ModuleFileFault) -> SiteFault
    ensures { result ≡ spec.of_modules fault }
{
    match fault {
        ModuleFileFault::Missing(file) => SiteFault::Missing(file),
        ModuleFileFault::TooLong(file) => SiteFault::TooLong(file),
        ModuleFileFault::Unreadable(file) => SiteFault::Unreadable(file),
        ModuleFileFault::Refused(file, fault) => refusal(file, of_chunk(fault)),
        ModuleFileFault::TooMany => SiteFault::TooManyModules,
        ModuleFileFault::Memory => SiteFault::Memory,
    }
}

/// Loads the site of which the file of this name holds the configuration: reads it, the grammar of its blocks of Lua
/// and the modules that these require, and starts it.
pub fn load_site<F: Files>(
    alloc: Global,
    files: &mut F,
    name: &str,
) -> Result<Site<SiteMachine>, SiteFault>
    ensures ok { IfOk result (λ site. IfSome (F.account files.old).told (λ held. HasSite held name.now (site_of site))) }
    ensures err { IfErr result (NotLoaded name.now (F.account files.old) (F.account files.new)) }
    ensures well { OnOk result (ReadsWell (F.account files.old) (F.account files.new)) }
{
    let SiteTexts { conf, mut set } = read_conf(alloc, files, name)?;
    match read_modules(alloc, files, &conf.package, &mut set) {
        Ok(()) => start_site(alloc, conf, set),
        Err(fault) => {
            drop(conf);
            drop(set);
            Err(of_modules(fault))
        }
    }
}
