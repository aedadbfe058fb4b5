ghost use Rattle.std.specs.Prelude.{◌≡◌, map, IfOk};
ghost use Rattle.ui_file.specs.Words as spec;
ghost use Rattle.ui_file.specs.Words.{said, words, text_at, name_of};

use std::alloc::Global;
use ui_base::{Items, Name, Text};
use ui_file::{File, FileWords};
use ui_frame::NoMemory;
use ui_strpos::{NameEl, PkgEl, PosBaseEl};

/// A text of a list, or nothing where the number isn't below its length.
pub fn text_at<'a>(texts: &'a [Text], k: u32) -> &'a [u8]
    ensures { result.now ≡ spec.text_at texts.now k }
{
    match texts.get(k as usize) {
        Some(text) => text.bytes(),
        None => b"".as_slice(),
    }
}

fn file_texts(alloc: Global, texts: &[Text], bases: &[PosBaseEl]) -> Result<Items<Text>, NoMemory>
    ensures { IfOk result (λ v. v ≡ map (λ b. text_at texts.now b.file) bases.now) }
{
    let mut files = Vec::new(alloc);
    for base in bases {
        files.push(Text::from_slice(alloc, text_at(texts, base.file))?)?;
    }
    Ok(Items::new(files))
}

fn path_texts(alloc: Global, texts: &[Text], packages: &[PkgEl]) -> Result<Items<Text>, NoMemory>
    ensures { IfOk result (λ v. v ≡ map (λ p. text_at texts.now p.path) packages.now) }
{
    let mut paths = Vec::new(alloc);
    for package in packages {
        paths.push(Text::from_slice(alloc, text_at(texts, package.path))?)?;
    }
    Ok(Items::new(paths))
}

fn name_at(alloc: Global, texts: &[Text], paths: &[Text], name: &NameEl) -> Result<Name, NoMemory>
    ensures { IfOk result (λ n. n ≡ name_of texts.now paths.now name.now) }
{
    let path = Text::from_slice(alloc, text_at(paths, name.pkg))?;
    let name = Text::from_slice(alloc, text_at(texts, name.name))?;
    Ok(Name { path, name })
}

fn names(
    alloc: Global,
    texts: &[Text],
    paths: &[Text],
    els: &[NameEl],
) -> Result<Items<Name>, NoMemory>
    ensures { IfOk result (λ v. v ≡ map (name_of texts.now paths.now) els.now) }
{
    let mut names = Vec::new(alloc);
    for el in els {
        names.push(name_at(alloc, texts, paths, el)?)?;
    }
    Ok(Items::new(names))
}

fn copies(alloc: Global, list: &[Text]) -> Result<Items<Text>, NoMemory>
    ensures { IfOk result (λ v. v ≡ list.now) }
{
    let mut texts = Vec::new(alloc);
    for text in list {
        texts.push(text.copy(alloc)?)?;
    }
    Ok(Items::new(texts))
}

/// What the parts of a file say.
pub fn file_words(alloc: Global, file: &File) -> Result<FileWords, NoMemory>
    ensures { IfOk result (λ w. said w ≡ words file.now) }
{
    let texts = copies(alloc, file.texts.items())?;
    let files = file_texts(alloc, file.texts.items(), file.bases.items())?;
    let paths = path_texts(alloc, file.texts.items(), file.packages.items())?;
    let names = names(alloc, texts.items(), paths.items(), file.names.items())?;
    Ok(FileWords {
        texts,
        files,
        paths,
        names,
    })
}
