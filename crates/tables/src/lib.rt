// Examples by table: shown forms, packed lists, maps and styles.
#![tactic(auto)]

#[cfg(test)]
mod maps;
#[cfg(test)]
mod packed;
#[cfg(test)]
mod shown;
#[cfg(test)]
mod styles;
