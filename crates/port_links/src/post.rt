use crate::Mail;

/// A mail, and the process that it is for, by its place in the order of declaration, from 0.
#[derive(Drop)]
pub struct Post {
    pub to: u32,
    pub mail: Mail,
}
